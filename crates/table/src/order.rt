// Numbers in a table's bytes, in either order: the order is a parameter, true where the lowest byte comes first.
ghost use Rattle.std.specs.Prelude.{◌≡◌, ◌+◌, ◌≤◌, length, take, drop};
ghost use Rattle.std.proofs.lemmas.List.Edits.{sets};
ghost use Rattle.table.specs.Order.{get, put};

// The number of 16 bits at a place.
pub fn get16(s: &[u8], at: usize, little: bool) -> u32
    requires { at + 2 ≤ length s.now }
    ensures { result ≡ get little (take 2 (drop at s.now)) }
{
    let bytes = [s[at], s[at + 1]];
    if little {
        u32::from(u16::from_le_bytes(bytes))
    } else {
        u32::from(u16::from_be_bytes(bytes))
    }
}

// The number of 32 bits at a place.
pub fn get32(s: &[u8], at: usize, little: bool) -> u32
    requires { at + 4 ≤ length s.now }
    ensures { result ≡ get little (take 4 (drop at s.now)) }
{
    let bytes = [s[at], s[at + 1], s[at + 2], s[at + 3]];
    if little {
        u32::from_le_bytes(bytes)
    } else {
        u32::from_be_bytes(bytes)
    }
}

// A number of 32 bits, written at a place.
#[tactic(auto, using(crate::proofs::CopySteps::little_copied, crate::proofs::CopySteps::big_copied))]
pub fn put32(out: &mut [u8], at: usize, little: bool, n: u32)
    requires { at + 4 ≤ length out.old }
    ensures { out.new ≡ sets out.old at (put little 4 n) }
{
    let place = &mut out[at..at + 4];
    if little {
        place.copy_from_slice(&n.to_le_bytes());
    } else {
        place.copy_from_slice(&n.to_be_bytes());
    }
}
