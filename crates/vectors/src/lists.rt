// Lists of merges: a table that is carried from a compiled text on, merged with others and judged.
use crate::answers::{say_compile, say_judge, say_merge};
use crate::reading::{Head, TABLE_ROOM, TEXT_ROOM, copy, read_bytes, within};
use compile::compile;
use judge::judge;
use table_merge::{MergeRefusal, Merged, merge};

// The start of a list: a text, whose table is carried from here on.
pub fn start_case(little: bool, table: &mut [u8]) -> usize {
    let mut text = [0u8; TEXT_ROOM];
    let n = read_bytes(&mut text);
    say_compile(compile(&text[..n], little, table))
}

// A data text by the carried table.
pub fn judge_carried(root: u32, table: &[u8]) {
    let mut text = [0u8; TEXT_ROOM];
    let k = read_bytes(&mut text);
    let answer = judge(table, root, &text[..k]);
    say_judge(answer);
}

// A merge of the carried table with another, as first or as second.
fn run_merge(
    first: bool,
    table: &[u8],
    other: &[u8],
    little: bool,
    out: &mut [u8],
) -> Result<Merged, MergeRefusal> {
    if first {
        merge(table, other, little, out)
    } else {
        merge(other, table, little, out)
    }
}

// The carried table merged with another; the table written is carried from here on, and its length answered.
fn merge_step(
    first: bool,
    table: &mut [u8],
    length: usize,
    other: &[u8],
    little: bool,
    out: &mut [u8],
) -> usize {
    let n = within(length, table);
    let answer = run_merge(first, &table[..n], other, little, out);
    say_merge(answer);
    match answer {
        Ok(merged) => {
            copy(out, table);
            merged.length
        }
        Err(_) => length,
    }
}

// A step of a list: the other table, into so much room.
pub fn step_case(first: bool, head: Head, table: &mut [u8], length: usize) -> usize {
    let mut other = [0u8; TABLE_ROOM];
    let k = read_bytes(&mut other);
    let mut out = [0u8; TABLE_ROOM];
    let m = within(head.number as usize, &out);
    merge_step(
        first,
        table,
        length,
        &other[..k],
        head.little,
        &mut out[..m],
    )
}
