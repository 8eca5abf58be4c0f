// What a walk goes over.
ghost use Rattle.judge_tape.specs.Clauses.Rows.{Walk};

// A table's records and pool, and a text with its tape: what judging goes over.
#[derive(Clone, Copy)]
pub struct Inputs<'a> {
    pub records: &'a [u8],
    pub pool: &'a [u8],
    pub text: &'a [u8],
    pub tape: &'a [u16],
    pub rows: usize,
    pub ghost walk: { Walk records.now pool.now text.now tape.now rows },
}
