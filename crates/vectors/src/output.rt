// Answers, printed.
ghost use Rattle.std.specs.Prelude.{◌≡◌};
ghost use Rattle.vectors.specs.Digests.{digest_of};

use refusals::Refusal;

// Prints bytes.
pub fn say(bytes: &[u8]) {
    io::write_all(1, bytes);
}

// Prints bytes and a number behind them.
pub fn say_number(bytes: &[u8], n: u64) {
    io::write_all(1, bytes);
    io::print_decimal(1, n);
}

// Prints the number and the place of a refusal.
pub fn say_refusal(refusal: Refusal) {
    say_number(b" refused ", u64::from(u8::from(refusal.cause)));
    say_number(b" at ", refusal.place as u64);
}

// A number by which a buffer's bytes are compared with those expected.
#[tactic(auto, using(crate::proofs::DigestSteps::digest_first, crate::proofs::DigestSteps::digest_on, crate::proofs::DigestSteps::digest_end))]
pub fn digest(bytes: &[u8]) -> u64
    ensures { result ≡ digest_of bytes.now }
{
    let mut sum: u64 = 0;
    for &byte in bytes {
        sum = (sum * 257 + u64::from(byte) + 1) % 4_294_967_291;
    }
    sum
}
