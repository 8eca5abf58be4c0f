// Bytes, copied.
ghost use Rattle.std.specs.Prelude.{◌≡◌, ◌+◌, ◌-◌, ◌≤◌, length, drop};
ghost use Rattle.std.proofs.lemmas.List.Edits.{sets};

// The bytes from a place on, put at a place of others.
#[tactic(auto, using(crate::proofs::CopySteps::of_copies))]
pub fn copy_bytes(bytes: &[u8], from: usize, out: &mut [u8], to: usize)
    requires { (from ≤ length bytes.now) × (to + (length bytes.now - from) ≤ length out.old) }
    ensures { out.new ≡ sets out.old to (drop from bytes.now) }
{
    for i in 0..bytes.len() - from {
        out[to + i] = bytes[from + i];
    }
}
