// Cases of compiling and of judging.
use crate::answers::{say_compile, say_judge};
use crate::output::{digest, say_number};
use crate::reading::{TABLE_ROOM, TEXT_ROOM, read_bytes};
use compile::compile;
use judge::judge;

// A text compiled into an output, and the output behind it.
fn run_compile(text: &[u8], little: bool, out: &mut [u8]) {
    say_compile(compile(text, little, out));
    say_number(b", bytes ", digest(out));
}

// A case of compiling: a text, and the output as lent.
pub fn compile_case(little: bool) {
    let mut text = [0u8; TEXT_ROOM];
    let n = read_bytes(&mut text);
    let mut out = [0u8; TABLE_ROOM];
    let m = read_bytes(&mut out);
    run_compile(&text[..n], little, &mut out[..m]);
}

// A case of judging at a root: a table and a data text.
pub fn judge_case(root: u32) {
    let mut table = [0u8; TABLE_ROOM];
    let n = read_bytes(&mut table);
    let mut text = [0u8; TEXT_ROOM];
    let k = read_bytes(&mut text);
    let answer = judge(&table[..n], root, &text[..k]);
    say_judge(answer);
}
