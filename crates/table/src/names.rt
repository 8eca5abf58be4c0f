// Names: the part of the pool that a record's place and length name.
ghost use Rattle.std.specs.Prelude.{◌≡◌, [], ◌∷◌, ◌<◌, ◌≤◌};
ghost use Rattle.std.specs.Prelude.{None};
ghost use Rattle.lexis.specs.Bytes.{among};
ghost use Rattle.table.specs.Records.{image_of};
ghost use Rattle.table.specs.Check.{table_fault};
ghost use Rattle.table.specs.Names.{name_slice, name_outcome, name_answer, slice_bytes};
ghost use Rattle.table.specs.Clauses.Answers.{Opened, slice_of, answer_of};

use crate::check::check;
use crate::records::{Frame, PoolPlace, RecordNumber, frame_of, kind_at, read};
use refusals::{Cause, Refusal};

// Where the name of a record lies in its table.
#[derive(Clone, Copy)]
pub struct NamePart {
    pub start: usize,
    pub length: usize,
}

// Objects, attributes and strings have a name.
fn has_name(kind: u8) -> bool
    ensures { result ≡ among kind (1 ∷ 2 ∷ 5 ∷ []) }
{
    match kind {
        0 => false,
        1..=2 => true,
        3..=4 => false,
        5 => true,
        6..=255 => false,
    }
}

// Where the name of a record lies that has one.
#[tactic(auto, using(crate::proofs::NameSteps::name_steps))]
fn name_part(table: &[u8], frame: Frame, n: RecordNumber) -> NamePart
    requires opened { Opened table.now frame }
    requires le_n { (1 ≤ n.0) × (n.0 < frame.count) }
    ensures { slice_of result ≡ name_slice (image_of table.now) n.0 }
{
    let e = read(table, n.start());
    NamePart {
        start: PoolPlace(e.a).start(frame.count),
        length: e.b as usize,
    }
}

// The name of a record, in a table that passes the check.
#[tactic(auto, using(crate::proofs::NameSteps::name_steps))]
fn name_in(table: &[u8], n: RecordNumber) -> Result<NamePart, Refusal>
    requires { table_fault table.now ≡ None }
    ensures { answer_of result ≡ name_outcome (image_of table.now) n.0 }
{
    let frame = frame_of(table);
    if !has_name(kind_at(table, frame, n)) {
        return Err(Cause::NoName.at(n.0 as usize));
    }
    Ok(name_part(table, frame, n))
}

// Where the name of a record lies in a table, and else why it has none.
#[tactic(auto, using(crate::proofs::NameSteps::name_steps))]
pub fn name_refusal(table: &[u8], record: u32) -> Result<NamePart, Refusal>
    ensures { answer_of result ≡ name_answer table.now «record» }
{
    check(table)?;
    name_in(table, RecordNumber(record))
}

// The name of a record, which is the part of the table itself; with a refusal, an empty part.
#[tactic(auto, using(crate::proofs::NameSteps::name_steps))]
pub fn name<'a>(table: &'a [u8], record: u32) -> &'a [u8]
    ensures { result.now ≡ slice_bytes table.now (name_answer table.now «record») }
{
    match name_refusal(table, record) {
        Ok(part) => {
            let end = part.start + part.length;
            &table[part.start..end]
        }
        Err(_) => &table[0..0],
    }
}
