// The memo: which attributes are known to admit which blocks, and which items which strings and words, a bit for each pair of a row and a record.
ghost use Rattle.std.specs.Prelude.{◌≡◌, ◌+◌, ◌*◌, ◌-◌, ◌≤◌, ◌<◌, length};
ghost use Rattle.table.specs.Rows.{shape_of, is_listed};
ghost use Rattle.table.specs.Clauses.Answers.{record_of};
ghost use Rattle.judge_admission.specs.Clauses.Items.{Lies, NamedRecord};
ghost use Rattle.judge_tape.specs.Clauses.Rows.{LeafRow};
ghost use Rattle.judge_tape.specs.Clauses.Memo.{bit_of, with_bit, marked, mark_bit, Marks, record_count, base_of, VisitOf, seen_before, admitted_in, mark_chain, ChainGood, ChainMarked, may_visit, leads_in, mark_item, mark_items, enter_leaf, known_in, Listing, ItemsMarked, MemoGood, KnownIs};

use crate::inputs::Inputs;
use crate::members::{Block, number};
use judge_admission::{entry_at, item_admits};
use table::layout::{DATE_KIND, INTEGER_KIND, RECORD_SIZE, STRING_KIND};
use table::records::{Entry, RecordNumber};

// The number of the header, which is no attribute: its bit says that the block was judged before.
const HEADER: u32 = 0;

// A visit of a block: the number of the block's first bit, and whether the block was judged before. The bit of the pair with a
// record stands so many behind the first as the record's number says.
#[derive(Clone, Copy)]
pub struct Visit {
    pub base: usize,
    pub again: bool,
}

// Bit k of a byte is set.
fn has_bit(b: u8, k: usize) -> bool
    requires { k < 8 }
    ensures { result ≡ bit_of b k }
{
    (b >> k) % 2 == 1
}

// A byte with bit k set.
#[tactic(auto, using(crate::proofs::MemoSteps::bit_there, crate::proofs::MemoSteps::bit_not, crate::proofs::MemoSteps::bit_room))]
fn with_bit(b: u8, k: usize) -> u8
    requires { k < 8 }
    ensures { result ≡ with_bit b k }
{
    if has_bit(b, k) { b } else { b + (1 << k) }
}

// The bit with a number is set; none is behind the memo's end.
#[tactic(auto, using(crate::proofs::MemoSteps::marked_inside, crate::proofs::MemoSteps::marked_outside))]
fn is_marked(memo: &[u8], i: usize) -> bool
    ensures { result ≡ marked memo.now i }
{
    let at = i / 8;
    at < memo.len() && has_bit(memo[at], i % 8)
}

// Sets the bit with a number, if it is not behind the memo's end.
#[tactic(auto, using(crate::proofs::MemoSteps::mark_inside, crate::proofs::MemoSteps::mark_outside, crate::proofs::MemoSteps::bit_inside, crate::proofs::MemoSteps::bit_outside))]
fn mark(memo: &mut [u8], i: usize)
    ensures memo_after { memo.new ≡ mark_bit memo.old i }
    ensures marks { Marks memo.old i memo.new }
{
    let at = i / 8;
    if at < memo.len() {
        let b = memo[at];
        memo[at] = with_bit(b, i % 8);
    }
}

// The number of records.
pub fn record_count(records: &[u8]) -> usize
    ensures { result ≡ record_count records.now }
{
    records.len() / RECORD_SIZE
}

// The number of the bit of a block and an attribute.
fn pair(visit: Visit, n: u32) -> usize
    requires { visit.base ≤ 8388608 }
    ensures { result ≡ visit.base + n }
{
    visit.base + (n as usize)
}

// Visits a block. The outermost block is judged once.
#[tactic(auto, using(crate::proofs::MemoSteps::base_fits, crate::proofs::MemoSteps::base_near, crate::proofs::MemoSteps::visit_outermost, crate::proofs::MemoSteps::visit_row, crate::proofs::MemoSteps::visit_bit, crate::proofs::MemoSteps::visit_marks, crate::proofs::MemoSteps::seen_outermost, crate::proofs::MemoSteps::seen_row))]
pub fn enter(records: &[u8], memo: &mut [u8], block: Block) -> Visit
    requires { base_of records.now block ≤ 8388608 }
    ensures visit_of { VisitOf records.now block result }
    ensures again_value { result.again ≡ seen_before records.now memo.old block }
    ensures memo_after { memo.new ≡ mark_bit memo.old (base_of records.now block) }
    ensures marks { Marks memo.old (base_of records.now block) memo.new }
{
    let base = block.first * record_count(records);
    let once = Visit { base, again: false };
    let judged = pair(once, HEADER);
    let seen = is_marked(memo, judged);
    mark(memo, judged);
    if block.first == 0 {
        return once;
    }
    Visit { base, again: seen }
}

// No attribute is left, or those from the one with a number on are known to admit the block.
#[tactic(auto, using(crate::proofs::MemoSteps::none_left, crate::proofs::MemoSteps::visit_again, crate::proofs::MemoSteps::visit_first))]
pub fn is_admitted(memo: &[u8], visit: Visit, n: u32) -> bool
    requires { visit.base ≤ 8388608 }
    ensures { result ≡ admitted_in memo.now visit n }
{
    n == 0 || visit.again && is_marked(memo, pair(visit, n))
}

// Marks the attributes from a record on as admitting the block, up to the first that is marked; on a block's first visit
// none.
#[tactic(auto, using(crate::proofs::MemoSteps::chain_none, crate::proofs::MemoSteps::chain_first, crate::proofs::MemoSteps::chain_start))]
pub fn mark_chain(records: &[u8], memo: &mut [u8], visit: Visit, first: u32)
    requires chain_good { ChainGood records.now first }
    requires base_bound { visit.base ≤ 8388608 }
    ensures memo_after { memo.new ≡ mark_chain records.now visit first memo.old }
    ensures chain_marked { ChainMarked records.now memo.old visit.base first memo.new }
{
    if !visit.again {
        return;
    }
    let mut n = first;
    while !is_admitted(memo, visit, n) {
        let e = entry_at(records, RecordNumber(n));
        mark(memo, pair(visit, n));
        n = e.d;
    }
}

// Takes one from the visits of attributes that are left. With a memo there need be none.
#[tactic(auto, using(crate::proofs::ListSteps::visits_none, crate::proofs::ListSteps::visits_some, crate::proofs::ListSteps::visits_spent))]
pub fn may_visit(memo: &[u8], visits: &mut u32) -> bool
    ensures value { result ≡ may_visit (length memo.now) visits.old }
    ensures visits_after { visits.new ≡ visits.old - 1 }
{
    let left = *visits;
    if left == 0 {
        return memo.len() != 0;
    }
    *visits = left - 1;
    true
}

// The kind is that of an item of a list.
#[tactic(auto, using(crate::proofs::ListSteps::listed_integer, crate::proofs::ListSteps::listed_string, crate::proofs::ListSteps::listed_date, crate::proofs::ListSteps::unlisted))]
fn is_listed(kind: u8) -> bool
    ensures { result ≡ is_listed (shape_of kind) }
{
    matches!(kind, INTEGER_KIND | STRING_KIND | DATE_KIND)
}

// An item admits a value by itself, or the item next to it is marked.
#[tactic(auto, using(crate::proofs::ListSteps::leads_alone, crate::proofs::ListSteps::leads_none, crate::proofs::ListSteps::leads_next))]
fn leads_in(pool: &[u8], memo: &[u8], base: usize, e: Entry, value: &[u8], is_string: bool) -> bool
    requires named_record { NamedRecord pool.now (record_of e) }
    requires base_bound { base ≤ 8388608 }
    ensures { result
        ≡ leads_in pool.now memo.now base (record_of e) is_string value.now }
{
    item_admits(pool, e, value, is_string) || e.e != 0 && is_marked(memo, base + (e.e as usize))
}

// Marks the item with a number if those from it on admit the value of a row.
fn mark_item(
    records: &[u8],
    pool: &[u8],
    memo: &mut [u8],
    base: usize,
    n: RecordNumber,
    value: &[u8],
    is_string: bool,
)
    requires listing { Listing records.now pool.now memo.old base is_string value.now }
    requires le_n { (1 ≤ n.0) × (n.0 < record_count records.now) }
    ensures memo_after { memo.new
        ≡ mark_item records.now pool.now base is_string value.now n.0
        memo.old }
    ensures items_marked { ItemsMarked records.now pool.now memo.old base is_string
        value.now memo.new }
{
    let e = entry_at(records, n);
    if is_listed(e.kind) && leads_in(pool, memo, base, e, value, is_string) {
        mark(memo, base + (n.0 as usize));
    }
}

// Marks each item of which those from it on admit the value of a row, the last record first.
fn mark_items(
    records: &[u8],
    pool: &[u8],
    memo: &mut [u8],
    base: usize,
    value: &[u8],
    is_string: bool,
)
    requires { Listing records.now pool.now memo.old base is_string value.now }
    ensures memo_after { memo.new
        ≡ mark_items records.now pool.now base is_string value.now
        (record_count records.now - 1) memo.old }
    ensures items_marked { ItemsMarked records.now pool.now memo.old base is_string
        value.now memo.new }
{
    for n in (1..record_count(records)).rev() {
        mark_item(
            records,
            pool,
            memo,
            base,
            RecordNumber(n as u32),
            value,
            is_string,
        );
    }
}

// Visits a row that holds a string or a word: on the first visit its items are marked.
#[tactic(auto, using(crate::proofs::MemberSteps::value_order, crate::proofs::MemberSteps::value_ends, crate::proofs::ListSteps::leaf_again, crate::proofs::ListSteps::leaf_first))]
fn enter_leaf(inputs: &Inputs, memo: &mut [u8], base: usize, row: usize)
    requires leaf_row { LeafRow inputs.now.rows inputs.now.tape.now row }
    requires memo_good { MemoGood inputs.now.records.now inputs.now.pool.now inputs.now.text.now inputs.now.tape.now inputs.now.rows memo.old }
    requires base_value { base ≡ (row + 1) * record_count inputs.now.records.now }
    ensures memo_after { memo.new
        ≡ enter_leaf inputs.now.records.now inputs.now.pool.now inputs.now.text.now inputs.now.tape.now row
        memo.old }
    ensures memo_good_2 { MemoGood inputs.now.records.now inputs.now.pool.now inputs.now.text.now inputs.now.tape.now inputs.now.rows
        memo.new }
{
    if is_marked(memo, base) {
        return;
    }
    mark(memo, base);
    let start = number(inputs.tape, row, 6);
    let end = number(inputs.tape, row, 7);
    let is_string = number(inputs.tape, row, 0) == 1;
    mark_items(
        inputs.records,
        inputs.pool,
        memo,
        base,
        &inputs.text[start..end],
        is_string,
    );
}

// Whether the memo knows that the items from a record on admit the string or word of a row.
#[tactic(auto, using(crate::proofs::ListSteps::memo_none, crate::proofs::ListSteps::memo_unknown, crate::proofs::ListSteps::memo_told, crate::proofs::ListSteps::none_known, crate::proofs::ListSteps::row_base, crate::proofs::ListSteps::row_known))]
pub fn is_known(inputs: &Inputs, memo: &mut [u8], first: RecordNumber, row: usize) -> bool
    requires leaf_row { LeafRow inputs.now.rows inputs.now.tape.now row }
    requires le_first { (1 ≤ first.0) × Lies inputs.now.records.now first.0 }
    requires memo_good { MemoGood inputs.now.records.now inputs.now.pool.now inputs.now.text.now inputs.now.tape.now inputs.now.rows memo.old }
    ensures value { result
        ≡ known_in inputs.now.records.now inputs.now.pool.now inputs.now.text.now inputs.now.tape.now row first.0
        memo.old }
    ensures memo_after { memo.new
        ≡ enter_leaf inputs.now.records.now inputs.now.pool.now inputs.now.text.now inputs.now.tape.now row
        memo.old }
    ensures known_is { KnownIs inputs.now.records.now inputs.now.pool.now inputs.now.text.now inputs.now.tape.now row
        first.0 result }
    ensures memo_good_2 { MemoGood inputs.now.records.now inputs.now.pool.now inputs.now.text.now inputs.now.tape.now inputs.now.rows
        memo.new }
{
    if memo.len() == 0 {
        return false;
    }
    let base = (row + 1) * record_count(inputs.records);
    enter_leaf(inputs, memo, base, row);
    is_marked(memo, base + (first.0 as usize))
}
