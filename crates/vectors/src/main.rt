// Runs cases of the jobs from standard input, and lists of merges that start from a compiled text and are judged after each step; prints a line for
// each.
#![tactic(auto)]

mod answers;
mod lists;
mod output;
mod reading;
mod tables;
mod texts;
mod titles;

use crate::lists::{judge_carried, start_case, step_case};
use crate::output::say;
use crate::reading::{Head, TABLE_ROOM, read_head, within};
use crate::tables::{check_case, merge_case, name_case};
use crate::texts::{compile_case, judge_case};
use crate::titles::say_title;

// Runs a case of a job by its kind.
fn run_job(head: Head) {
    match head.kind {
        b'c' => check_case(),
        b'n' => name_case(head.number),
        b'm' => merge_case(head.little),
        b'j' => judge_case(head.number),
        b't' => compile_case(head.little),
        _ => say(b" no such case"),
    }
}

// Runs a case by its kind, and answers how long the carried table is behind it.
fn run_kind(head: Head, table: &mut [u8], length: usize) -> usize {
    match head.kind {
        b's' => start_case(head.little, table),
        b'f' => step_case(true, head, table, length),
        b'l' => step_case(false, head, table, length),
        b'v' => {
            let n = within(length, table);
            judge_carried(head.number, &table[..n]);
            length
        }
        _ => {
            run_job(head);
            length
        }
    }
}

// Runs a case, if there is one, and answers how long the carried table is behind it.
fn run_case(table: &mut [u8], length: usize) -> Option<usize> {
    let head = read_head()?;
    say_title();
    let next = run_kind(head, table, length);
    say(b"\n");
    Some(next)
}

// Runs all cases. A proved loop has to end, and nothing says that the input does: so the turns are counted.
fn run_all(table: &mut [u8]) {
    let mut length: usize = 0;
    for _ in 0..u64::MAX {
        let Some(next) = run_case(table, length) else {
            return;
        };
        length = next;
    }
}

fn main() {
    let mut table = [0u8; TABLE_ROOM];
    run_all(&mut table);
}
