// Bytes copied, and parts of the text in the pool.
ghost use Rattle.std.specs.Prelude.{◌≡◌, ◌^◌, ◌<◌};
ghost use Rattle.compile_emission.specs.Clauses.Answers.{CopyFits, PartFits, PartPut, pooled_place};

use cadl_items::spans::narrow;
use table::copying::copy_bytes;
use table::layout::POOL_ROOM;

// Copies a part of some bytes to a place of others; the place behind it there.
#[tactic(auto, using(crate::proofs::WritingSteps::part_asks, crate::proofs::WritingSteps::part_put))]
pub fn copy(from: &[u8], start: usize, end: usize, out: &mut [u8], at: usize) -> usize
    requires { CopyFits from.now start end out.old at }
    ensures { PartPut from.now start end at out.old out.new result }
{
    copy_bytes(&from[start..end], 0, out, at);
    at + (end - start)
}

// Copies a part of the text into the pool; the place behind it.
pub fn put_part(s: &[u8], start: usize, end: usize, bytes: &mut [u8; POOL_ROOM], at: usize) -> usize
    requires { PartFits s.now start end at }
    ensures { PartPut s.now start end at bytes.old bytes.new result }
{
    copy(s, start, end, bytes, at)
}

// The place in the pool of a part of the text, 0 where it has no byte.
pub fn place_of(start: usize, end: usize, at: usize) -> u32
    requires { at < 2 ^ 32 }
    ensures { result ≡ pooled_place start end at }
{
    if start < end { narrow(at) } else { 0 }
}
