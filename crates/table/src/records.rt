// Records, their numbers, and places in the pool.
ghost use Rattle.std.specs.Prelude.{◌≡◌, ◌+◌, ◌*◌, ◌<◌, ◌≤◌, ◌^◌, length, take, drop};
ghost use Rattle.table.specs.Records.{record_size, is_little, is_marked, decode, field, header, image_of};
ghost use Rattle.table.specs.Check.{kind_at};
ghost use Rattle.table.specs.Clauses.Answers.{plain_entry, record_of, ordered_as, Opened};

use crate::layout::{A_AT, B_AT, C_AT, D_AT, E_AT, FLAG_AT, KIND_AT, MARK, RECORD_SIZE};
use crate::order::{get16, get32};
use refusals::limits::{POOL_LIMIT, RECORD_LIMIT};

// The most records of a table and the most bytes of its pool, as the header holds them.
pub const RECORD_MOST: u32 = RECORD_LIMIT as u32;

pub const POOL_MOST: u32 = POOL_LIMIT as u32;

// The number of a record, as a link holds it.
#[derive(Clone, Copy)]
pub struct RecordNumber(pub u32);

// A place in the pool.
#[derive(Clone, Copy)]
pub struct PoolPlace(pub u32);

// How far record numbers move.
#[derive(Clone, Copy)]
pub struct RecordShift(pub u32);

// How far places in the pool move.
#[derive(Clone, Copy)]
pub struct PoolShift(pub u32);

impl RecordNumber {
    // The number, moved.
    pub fn moved(self, by: RecordShift) -> RecordNumber
        requires { by.0 + self.0 < 2 ^ 32 }
        ensures { result.0 ≡ by.0 + self.0 }
    {
        RecordNumber(by.0 + self.0)
    }

    // Where the record starts in a table.
    pub fn start(self) -> usize
        ensures { result ≡ record_size * self.0 }
    {
        RECORD_SIZE * (self.0 as usize)
    }
}

impl PoolPlace {
    // The place, moved.
    pub fn moved(self, by: PoolShift) -> PoolPlace
        requires { by.0 + self.0 < 2 ^ 32 }
        ensures { result.0 ≡ by.0 + self.0 }
    {
        PoolPlace(by.0 + self.0)
    }

    // Where the place lies in a table of so many records.
    pub fn start(self, count: u32) -> usize
        ensures { result ≡ record_size * count + self.0 }
    {
        RECORD_SIZE * (count as usize) + (self.0 as usize)
    }
}

// The record at a place has its lowest bytes first.
#[tactic(auto, using(crate::proofs::RecordSteps::record_steps))]
pub fn is_little(s: &[u8], at: usize) -> bool
    requires { at + 2 ≤ length s.now }
    ensures { result ≡ is_little (drop at s.now) }
{
    get16(s, at, true) == MARK
}

// The record at a place bears one of the two marks.
#[tactic(auto, using(crate::proofs::RecordSteps::record_steps))]
pub fn is_marked(s: &[u8], at: usize) -> bool
    requires { at + 2 ≤ length s.now }
    ensures { result ≡ is_marked (drop at s.now) }
{
    get16(s, at, true) == MARK || get16(s, at, false) == MARK
}

// A record without its mark.
#[derive(Clone, Copy)]
pub struct Entry {
    pub kind: u8,
    pub flag: u8,
    pub a: u32,
    pub b: u32,
    pub c: u32,
    pub d: u32,
    pub e: u32,
}

// A record of a kind and a flag whose numbers are 0.
pub fn plain(kind: u8, flag: u8) -> Entry
    ensures { result ≡ plain_entry kind flag }
{
    Entry {
        kind,
        flag,
        a: 0,
        b: 0,
        c: 0,
        d: 0,
        e: 0,
    }
}

// A record with the bytes of each number, the lowest first, taken in the order told. The order is tested once for all of them.
#[tactic(auto, using(crate::proofs::RecordSteps::record_steps))]
pub fn ordered(r: Entry, little: bool) -> Entry
    ensures { record_of result ≡ ordered_as little (record_of r) }
{
    if little {
        return r;
    }
    Entry {
        kind: r.kind,
        flag: r.flag,
        a: r.a.swap_bytes(),
        b: r.b.swap_bytes(),
        c: r.c.swap_bytes(),
        d: r.d.swap_bytes(),
        e: r.e.swap_bytes(),
    }
}

// The record at a place, each number in the record's own order.
pub fn read(s: &[u8], at: usize) -> Entry
    requires { at + record_size ≤ length s.now }
    ensures { record_of result ≡ decode (take record_size (drop at s.now)) }
{
    let little = is_little(s, at);
    let r = Entry {
        kind: s[at + KIND_AT],
        flag: s[at + FLAG_AT],
        a: get32(s, at + A_AT, true),
        b: get32(s, at + B_AT, true),
        c: get32(s, at + C_AT, true),
        d: get32(s, at + D_AT, true),
        e: get32(s, at + E_AT, true),
    };
    ordered(r, little)
}

// A table's counts, as its header has them: of records, the header among them, and of the pool's bytes.
#[derive(Clone, Copy)]
pub struct Frame {
    pub count: u32,
    pub pool: u32,
}

// The counts in a table's header.
#[tactic(auto, using(crate::proofs::FrameLaws::frame_steps))]
pub fn frame_of(table: &[u8]) -> Frame
    requires { record_size ≤ length table.now }
    ensures { (result.count ≡ field (header table.now) 0)
        × (result.pool ≡ field (header table.now) 1) }
{
    let h = read(table, 0);
    Frame {
        count: h.a,
        pool: h.b,
    }
}

// The kind byte of the record with a number; 0 for the header, and for a number that no record has.
pub fn kind_at(table: &[u8], frame: Frame, n: RecordNumber) -> u8
    requires { Opened table.now frame }
    ensures { result ≡ kind_at (image_of table.now) n.0 }
{
    if n.0 == 0 {
        return 0;
    }
    if frame.count <= n.0 {
        return 0;
    }
    let at = n.start() + KIND_AT;
    table[at]
}
