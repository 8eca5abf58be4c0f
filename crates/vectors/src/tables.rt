// Cases of check, name and merge.
use crate::answers::say_merge;
use crate::output::{digest, say, say_number, say_refusal};
use crate::reading::{TABLE_ROOM, read_bytes};
use table::check::check;
use table::names::{name, name_refusal};
use table_merge::merge;

// A case of the check: a table.
pub fn check_case() {
    let mut table = [0u8; TABLE_ROOM];
    let n = read_bytes(&mut table);
    match check(&table[..n]) {
        Ok(()) => say(b" passed"),
        Err(refusal) => say_refusal(refusal),
    }
}

// The name of a record, where it lies and its bytes.
fn say_name(table: &[u8], record: u32) {
    match name_refusal(table, record) {
        Ok(part) => {
            say_number(b" start ", part.start as u64);
            say_number(b", length ", part.length as u64);
        }
        Err(refusal) => say_refusal(refusal),
    }
    say_number(b", bytes ", digest(name(table, record)));
}

// A case of name: a table.
pub fn name_case(record: u32) {
    let mut table = [0u8; TABLE_ROOM];
    let n = read_bytes(&mut table);
    say_name(&table[..n], record);
}

// Two tables merged into an output.
fn run_merge(first: &[u8], second: &[u8], little: bool, out: &mut [u8]) {
    let answer = merge(first, second, little, out);
    say_merge(answer);
    say_number(b", bytes ", digest(out));
}

// A case of a merge: the first table, the second, and the output as lent.
pub fn merge_case(little: bool) {
    let mut first = [0u8; TABLE_ROOM];
    let n = read_bytes(&mut first);
    let mut second = [0u8; TABLE_ROOM];
    let k = read_bytes(&mut second);
    let mut out = [0u8; TABLE_ROOM];
    let m = read_bytes(&mut out);
    run_merge(&first[..n], &second[..k], little, &mut out[..m]);
}
