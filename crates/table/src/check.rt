// The check of a table: its length, its header and its root, and then each record.
ghost use Rattle.std.specs.Prelude.{◌≡◌, ◌*◌, ◌<◌, length, take, drop};
ghost use Rattle.table.specs.Records.{record_size, decode, image_of};
ghost use Rattle.table.specs.Check.{record_right, broken, broken_record, framed, table_fault};
ghost use Rattle.table.specs.Clauses.Answers.{Opened, plain_header, counts_right, fault_of};

use crate::layout::{HEADER_KIND, OBJECT_KIND, RECORD_SIZE};
use crate::records::{
    Entry, Frame, POOL_MOST, RECORD_MOST, RecordNumber, frame_of, is_marked, kind_at, read,
};
use crate::rules::Table;
use refusals::{Cause, Refusal};

// The header's kind, flag and last two numbers are 0.
#[tactic(auto, using(crate::proofs::Chains::chain_steps))]
fn plain_header(h: Entry) -> bool
    ensures { result ≡ plain_header h }
{
    h.kind == HEADER_KIND && h.flag == 0 && h.d == 0 && h.e == 0
}

// The header's counts are within their limits, and make up a table of so many bytes.
#[tactic(auto, using(crate::proofs::Chains::chain_steps))]
fn counts_right(h: Entry, length: usize) -> bool
    ensures { result ≡ counts_right h length }
{
    2 <= h.a
        && h.a <= RECORD_MOST
        && h.b <= POOL_MOST
        && length == RECORD_SIZE * (h.a as usize) + (h.b as usize)
}

// The table's length, header and root are right.
#[tactic(auto, using(crate::proofs::CheckSteps::check_steps))]
fn is_framed(table: &[u8]) -> bool
    ensures { result ≡ framed table.now }
{
    if table.len() < RECORD_SIZE {
        return false;
    }
    if !is_marked(table, 0) {
        return false;
    }
    let h = read(table, 0);
    if !plain_header(h) {
        return false;
    }
    if !counts_right(h, table.len()) {
        return false;
    }
    let frame = Frame {
        count: h.a,
        pool: h.b,
    };
    kind_at(table, frame, RecordNumber(h.c)) == OBJECT_KIND
}

// The record with a number bears a mark and keeps the rules.
#[tactic(auto, using(crate::proofs::CheckSteps::check_steps))]
fn record_right(table: Table<'_>, n: RecordNumber) -> bool
    requires { n.0 < table.frame.count }
    ensures { result
        ≡ record_right (image_of table.entry.bytes.now) n.0
        (take record_size (drop (record_size * n.0) table.entry.bytes.now))
        (decode (take record_size (drop (record_size * n.0) table.entry.bytes.now))) }
{
    let at = n.start();
    is_marked(table.bytes, at) && table.rules_kept(n, read(table.bytes, at))
}

// Refuses the lowest record at fault, if there is one.
#[tactic(auto, using(crate::proofs::CheckSteps::check_steps))]
fn check_records(table: Table<'_>) -> Result<(), Refusal>
    ensures { fault_of result
        ≡ broken_record
        (broken (image_of table.entry.bytes.now) 1 (image_of table.entry.bytes.now).records
        (drop record_size table.entry.bytes.now)) }
{
    for n in 1..table.frame.count {
        if !record_right(table, RecordNumber(n)) {
            return Err(Cause::BrokenRecord.at(n as usize));
        }
    }
    Ok(())
}

// Whether bytes are a table, and else why not.
#[tactic(auto, using(crate::proofs::CheckSteps::check_steps))]
pub fn check(table: &[u8]) -> Result<(), Refusal>
    ensures { fault_of result ≡ table_fault table.now }
{
    if !is_framed(table) {
        return Err(Cause::NotATable.at(0));
    }
    check_records(Table {
        bytes: table,
        frame: frame_of(table),
    })
}
