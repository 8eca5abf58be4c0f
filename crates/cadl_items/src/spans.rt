// Items by twos in numbers: item i stands at 2i and 2i + 1. A span is an item that names two places of a text.
ghost use Rattle.std.specs.Prelude.{◌≡◌, ◌+◌, ◌*◌, ◌^◌, ◌<◌};
ghost use Rattle.lexis.specs.Runs.{listed};
ghost use Rattle.refusals.specs.Limits.{item_limit};
ghost use Rattle.cadl_items.specs.Clauses.Spans.{with_item, span_at, earlier, SpanLies, SpansIn};

use refusals::limits::ITEM_LIMIT;

// Numbers of the scratch of a leaf: two for each item.
pub const SCRATCH_ROOM: usize = 2 * ITEM_LIMIT;

// A number of a span, as a place.
pub fn place(x: u32) -> usize
    ensures { result ≡ x }
{
    x as usize
}

// A number as four bytes hold it.
pub fn narrow(n: usize) -> u32
    requires { n < 2 ^ 32 }
    ensures { result ≡ n }
{
    n as u32
}

// The bytes of span i.
fn span_bytes<'a>(s: &'a [u8], spans: &[u32], i: usize) -> &'a [u8]
    requires { SpanLies s.now spans.now i }
    ensures { result.now ≡ span_at s.now spans.now i }
{
    let start = spans[2 * i] as usize;
    let end = spans[2 * i + 1] as usize;
    &s[start..end]
}

// Whether bytes are those of a span from `first` on, up to `end`.
#[tactic(auto, using(crate::proofs::SpanSteps::longer_next, crate::proofs::SpanSteps::bytes_next, lexis::proofs::Comparing::bytes_on))]
pub fn repeated(s: &[u8], spans: &[u32], first: usize, end: usize, name: &[u8]) -> bool
    requires { SpansIn s.now spans.now first end }
    ensures { result ≡ listed name.now (earlier s.now spans.now first end) }
{
    let mut n = end;
    let mut again = false;
    'names: while first < n {
        n -= 1;
        let other = span_bytes(s, spans, n);
        if name.len() == other.len() {
            let mut i: usize = 0;
            loop {
                if i == name.len() {
                    again = true;
                    break 'names;
                }
                if name[i] != other[i] {
                    break;
                }
                i += 1;
            }
        }
    }
    again
}

// Writes item i.
pub fn put(scratch: &mut [u32; SCRATCH_ROOM], i: usize, a: u32, b: u32)
    requires { i < item_limit }
    ensures { scratch.new ≡ with_item scratch.old i a b }
{
    scratch[2 * i] = a;
    scratch[2 * i + 1] = b;
}
