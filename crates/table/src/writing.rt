// A record, written in either order.
ghost use Rattle.std.specs.Prelude.{◌≡◌, cond, [], ◌∷◌, ◌++◌, ◌+◌, ◌≤◌, length};
ghost use Rattle.std.proofs.lemmas.List.Edits.{sets};
ghost use Rattle.table.specs.Order.{put};
ghost use Rattle.table.specs.Records.{record_size, mark, encode};
ghost use Rattle.table.specs.Clauses.Answers.{record_of};

use crate::layout::{A_AT, B_AT, C_AT, D_AT, E_AT, FLAG_AT, KIND_AT};
use crate::order::put32;
use crate::records::{Entry, ordered};

// A byte of the mark, the lowest or the highest.
fn mark_byte(lowest: bool) -> u8
    ensures { result ≡ cond lowest 0xAD 0xC0 }
{
    if lowest { 0xAD } else { 0xC0 }
}

// A record's first four bytes: the mark, the kind and the flag.
#[tactic(auto, using(crate::proofs::WriteSteps::write_steps))]
fn put_head(out: &mut [u8], at: usize, little: bool, kind: u8, flag: u8)
    requires { at + 4 ≤ length out.old }
    ensures { out.new ≡ sets out.old at (put little 2 mark ++ (kind ∷ flag ∷ [])) }
{
    out[at] = mark_byte(little);
    out[at + 1] = mark_byte(!little);
    out[at + KIND_AT] = kind;
    out[at + FLAG_AT] = flag;
}

// A record, written at a place.
pub fn put_record(out: &mut [u8], at: usize, little: bool, r: Entry)
    requires { at + record_size ≤ length out.old }
    ensures { out.new ≡ sets out.old at (encode little (record_of r)) }
{
    let t = ordered(r, little);
    put_head(out, at, little, r.kind, r.flag);
    put32(out, at + A_AT, true, t.a);
    put32(out, at + B_AT, true, t.b);
    put32(out, at + C_AT, true, t.c);
    put32(out, at + D_AT, true, t.d);
    put32(out, at + E_AT, true, t.e);
}
