// How far reading and writing have come.
use refusals::limits::RECORD_LIMIT;

// Numbers of the stack of names of open objects: two for each name, of which there are fewer than records.
pub const NAMES_ROOM: usize = 2 * RECORD_LIMIT;

// A place of the text, the number of the next record and the bytes in the pool.
#[derive(Clone, Copy)]
pub struct Spot {
    pub place: usize,
    pub next: usize,
    pub pool: usize,
}

// The spot behind an attribute: of the last one it is behind the object's `}`, else the next attribute begins there.
#[derive(Clone, Copy)]
pub enum AttributeEnd {
    Last(Spot),
    More(Spot),
}
