// A table from the scratch to the output.
ghost use Rattle.std.specs.Prelude.{◌≡◌, [], ◌∷◌, ◌≤◌, ◌<◌, length};
ghost use Rattle.table.specs.Records.{make};
ghost use Rattle.lexis.specs.Tokens.{text_end};
ghost use Rattle.refusals.specs.Expecting.{expect};
ghost use Rattle.table.specs.Clauses.Answers.{record_of};
ghost use Rattle.refusals.specs.Outcomes.{answered, write};
ghost use Rattle.compile.specs.Clauses.Answers.{answer_of, table_written, TableRoom, finished};

use cadl_items::spans::narrow;
use compile_emission::pool::copy;
use compile_emission::rows::put_row;
use compile_emission::spots::Spot;
use lexis::TEXT_END;
use refusals::steps::expect;
use refusals::{Cause, Refusal};
use table::layout::{HEADER_KIND, POOL_ROOM, RECORD_SIZE, RECORDS_ROOM};
use table::records::{Entry, plain};

// The number of the root.
const ROOT: u32 = 1;

// A table's header: the number of its records, the bytes of its pool and its root.
fn header_entry(count: u32, pool: u32) -> Entry
    ensures { record_of result ≡ make 0 0 (count ∷ pool ∷ 1 ∷ []) }
{
    Entry {
        a: count,
        b: pool,
        c: ROOT,
        ..plain(HEADER_KIND, 0)
    }
}

// Puts the header before the records, and the records and the pool into the output, if they fit there; the text ends at `end`.
fn write_table(
    end: usize,
    little: bool,
    q: Spot,
    records: &mut [u8; RECORDS_ROOM],
    bytes: &[u8; POOL_ROOM],
    out: &mut [u8],
) -> Result<usize, Refusal>
    requires { TableRoom q }
    ensures { answered (answer_of result) out.new
        ≡ write (table_written little end q records.old bytes.now (length out.old))
        out.old }
{
    let size = RECORD_SIZE * q.next;
    let length = size + q.pool;
    if out.len() < length {
        return Err(Cause::OutputTooShort.at(end));
    }
    put_row(
        records,
        little,
        0,
        header_entry(narrow(q.next), narrow(q.pool)),
    );
    copy(records, 0, size, out, 0);
    copy(bytes, 0, q.pool, out, size);
    Ok(length)
}

// The text's end behind its tree, and the table.
pub fn finish(
    text: &[u8],
    little: bool,
    q: Spot,
    records: &mut [u8; RECORDS_ROOM],
    bytes: &[u8; POOL_ROOM],
    out: &mut [u8],
) -> Result<usize, Refusal>
    requires table_room { TableRoom q }
    requires place_in_bounds { q.place ≤ length text.now }
    ensures { answered (answer_of result) out.new
        ≡ write
        (finished little text.now q records.old bytes.now (length out.old)
        (expect text.now text_end q.place))
        out.old }
{
    expect(text, TEXT_END, q.place)?;
    write_table(text.len(), little, q, records, bytes, out)
}
