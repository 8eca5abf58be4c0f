// Cases, read from standard input.
//
// A case is six bytes, its kind, an order (1 where the lowest byte comes first) and a number of four bytes with the
// highest first; then its title and its arguments. Each of these is a row of pieces: two bytes say how many bytes a
// piece fills, two how many it brings, and then come these, to be repeated as far as it goes; one that fills none ends
// the row.
ghost use Rattle.std.specs.Prelude.{◌≤◌, ◌≡◌, length};
ghost use Rattle.io.specs.Counts.{IsPrefixLen};
ghost use Rattle.vectors.specs.Reading.{case_head, HeadRead, Grown, cut, Copied};

use table::order::{get16, get32};

// Room for the largest table and a record more, and for a text that is too long.
pub const TABLE_ROOM: usize = 65_568;

pub const TEXT_ROOM: usize = 16_400;

// What a case begins with.
#[derive(Clone, Copy)]
pub struct Head {
    pub kind: u8,
    pub little: bool,
    pub number: u32,
}

// What six bytes say that a case begins with; nothing where fewer were read, or where the kind is 0.
fn head_of(head: &[u8; 6], n: usize) -> Option<Head>
    ensures { result ≡ case_head head.now n }
{
    if n < 6 || head[0] == 0 {
        return None;
    }
    Some(Head {
        kind: head[0],
        little: head[1] == 1,
        number: get32(head, 2, false),
    })
}

// Reads what the next case begins with, if one is left. Of the bytes that are read nothing can be said.
pub fn read_head() -> Option<Head>
    ensures { HeadRead result }
{
    let mut head = [0u8; 6];
    let n = io::read_full(0, &mut head);
    head_of(&head, n)
}

// Repeats the bytes before a place, so many, up to an end.
fn repeat(buf: &mut [u8], from: usize, size: usize, end: usize)
    requires { (size ≤ from) × (end ≤ length buf.old) }
    ensures { length buf.new ≡ length buf.old }
{
    for i in from..end {
        buf[i] = buf[i - size];
    }
}

// Reads a piece to a place, and answers the place behind it, if one is left that has room there.
fn read_piece(buf: &mut [u8], at: usize) -> Option<usize>
    requires { at ≤ length buf.old }
    ensures { Grown at buf.old buf.new result }
{
    let mut head = [0u8; 4];
    let n = io::read_full(0, &mut head);
    if n < 4 {
        return None;
    }
    let size = get16(&head, 2, false) as usize;
    let all = get16(&head, 0, false) as usize;
    if all == 0 || all < size || buf.len() - at < all {
        return None;
    }
    let from = at + size;
    let got = io::read_full(0, &mut buf[at..from]);
    if got < size {
        return None;
    }
    repeat(buf, from, size, at + all);
    Some(at + all)
}

// Reads an argument to the front of a buffer, and answers how many bytes it has.
pub fn read_bytes(buf: &mut [u8]) -> usize
    ensures { IsPrefixLen result buf.new }
{
    let mut filled = 0;
    while let Some(next) = read_piece(buf, filled) {
        filled = next;
    }
    filled
}

// So many bytes of a buffer, or all where it has fewer.
pub fn within(n: usize, buf: &[u8]) -> usize
    ensures prefix_len { IsPrefixLen result buf.now }
    ensures value { result ≡ cut n buf.now }
{
    n.min(buf.len())
}

// Copies the front of one buffer to the front of another, as far as both go.
#[tactic(auto, using(crate::proofs::CopySteps::front_copied))]
pub fn copy(from: &[u8], to: &mut [u8])
    ensures { Copied from.now to.old to.new }
{
    let n = from.len().min(to.len());
    to[..n].copy_from_slice(&from[..n]);
}
