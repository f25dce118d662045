// The entries of a view and the rows, looked at from the left for their first fault. Of an item that is passed over its key, the
// entry's index or the row's node, is kept, and the bit after it; contents are not read here. Each field's bit is counted from the
// item's: a field asks nothing of its place, and a reader that moves would.
ghost use Rattle.std.specs.Prelude.{ℕ, ◌≡◌, ◌+◌, ◌*◌, ◌^◌, ◌≤◌, IfOk, true, false};
ghost use Rattle.model.specs.Record as model;
ghost use Rattle.model.specs.Reading as reading;
ghost use Rattle.record_entries.specs.Scans.{keyed, ended, scan_part, end_part, done_part};
ghost use Rattle.record_entries.specs.BitLayout.{index_of, node_of, mark_width};
ghost use Rattle.model.specs.Sizes.{index_limit};

use record_bits::bits::{Fault, holds};
use record_bits::fields::{
    CONTENT_MOST, IDENTITY_MOST, INDEX_MOST, entry_index, governed, index, limited, row_node,
    yes_no,
};

// An item that was passed over: its key and the bit after it.
#[derive(Clone, Copy)]
pub struct Passed {
    pub key: u64,
    pub next: usize,
}

// What stands in a list, each item above the one before it: how the model reads one, what rises, and the most bits of one.
pub trait Item {
    ghost Value: { Type 0 };

    ghost read: { ℕ → reading.Reader Value };

    ghost key: { Value → ℕ };

    ghost size: { ℕ };

    // An item whose key is at least `least`. Its bit is asked to be small, so that no sum wraps: no integer type ends there.
    fn pass(s: &[u8], at: usize, least: u64) -> Result<Passed, Fault>
        requires { at ≤ 2 ^ 32 }
        ensures reads { keyed key (read least s.now at) ≡ scan_part result }
        ensures near { IfOk result (λ p. (p.key ≤ index_limit) × (p.next ≤ at + size)) };
}

// An entry: index, term, mark, content length, content. A mark has a bit where it is shown, as in kind 9. It stands in line in both of
// its callers, so that kind 1 pays nothing for the test.
#[tactic(auto, unfolding(model::specs::Reading::shown, model::specs::Reading::mark, model::specs::Reading::yes_no))]
#[inline(always)]
fn pass_entry(s: &[u8], at: usize, least: u64, marked: bool) -> Result<Passed, Fault>
    requires { at ≤ 2 ^ 32 }
    ensures reads { keyed index_of (reading.shown marked least s.now at) ≡ scan_part result }
    ensures near { IfOk result (λ p. (p.key ≤ index_limit) × (p.next ≤ at + 305)) }
{
    let i = entry_index(s, at, least)?;
    let a = at + 10;
    if !holds(s, a, 32) {
        return Err(Fault::BitsMissing);
    }
    let b = a + 32;
    let c = pass_mark(s, b, marked)?;
    let n = limited(s, c, 6, CONTENT_MOST)?;
    let d = c + 6;
    let w = 8 * n as usize;
    if !holds(s, d, w) {
        return Err(Fault::BitsMissing);
    }
    Ok(Passed {
        key: i,
        next: d + w,
    })
}

// The bit after a mark.
#[tactic(auto, unfolding(model::specs::Reading::mark, model::specs::Reading::yes_no))]
#[inline(always)]
fn pass_mark(s: &[u8], at: usize, marked: bool) -> Result<usize, Fault>
    requires { at ≤ 2 ^ 33 }
    ensures reads { ended (reading.mark marked s.now at) ≡ end_part result }
    ensures near { IfOk result (λ k. k ≡ at + mark_width marked) }
{
    if !marked {
        return Ok(at);
    }
    if !holds(s, at, 1) {
        return Err(Fault::BitsMissing);
    }
    Ok(at + 1)
}

// An entry of kind 1.
pub struct Entry;

impl Item for Entry {
    ghost Value = { model.Shown };

    ghost read = { reading.shown false };

    ghost key = { index_of };

    ghost size = { 305 };

    fn pass(s: &[u8], at: usize, least: u64) -> Result<Passed, Fault> {
        pass_entry(s, at, least, false)
    }
}

// An entry of kind 9.
pub struct MarkedEntry;

impl Item for MarkedEntry {
    ghost Value = { model.Shown };

    ghost read = { reading.shown true };

    ghost key = { index_of };

    ghost size = { 305 };

    fn pass(s: &[u8], at: usize, least: u64) -> Result<Passed, Fault> {
        pass_entry(s, at, least, true)
    }
}

// A configuration: present, index, identity.
#[tactic(auto, unfolding(model::specs::Reading::configuration))]
fn scan_configuration(s: &[u8], at: usize) -> Result<(), Fault>
    requires { at ≤ 2 ^ 33 }
    ensures { ended (reading.configuration s.now at) ≡ done_part result (at + 43) }
{
    let p = yes_no(s, at)?;
    let a = at + 1;
    governed(s, a, p, 10, INDEX_MOST)?;
    let b = a + 10;
    governed(s, b, p, 32, IDENTITY_MOST)?;
    Ok(())
}

// A row: node, floor, commit, last index, floor configuration, actual configuration.
pub struct Row;

impl Item for Row {
    ghost Value = { model.Row };

    ghost read = { reading.row };

    ghost key = { node_of };

    ghost size = { 122 };

    #[tactic(auto, unfolding(model::specs::Reading::row))]
    fn pass(s: &[u8], at: usize, least: u64) -> Result<Passed, Fault> {
        let n = row_node(s, at, least)?;
        let a = at + 6;
        index(s, a)?;
        let b = a + 10;
        index(s, b)?;
        let c = b + 10;
        index(s, c)?;
        let d = c + 10;
        scan_configuration(s, d)?;
        let e = d + 43;
        scan_configuration(s, e)?;
        Ok(Passed {
            key: n,
            next: e + 43,
        })
    }
}

// The items of a list of `count`: the bit after the last, or the first fault.
pub fn scan_items<I: Item>(s: &[u8], first: usize, count: usize) -> Result<usize, Fault>
    requires { first + I.size * count ≤ 2 ^ 32 }
    ensures { ended (reading.many I.read I.key 0 count s.now first) ≡ end_part result }
{
    let mut at = first;
    let mut least: u64 = 0;
    for _ in 0..count {
        let passed = I::pass(s, at, least)?;
        least = passed.key + 1;
        at = passed.next;
    }
    Ok(at)
}

// The entries of a view of `count`, each with its mark where the view shows them.
pub fn scan_entries(s: &[u8], first: usize, count: usize, marked: bool) -> Result<usize, Fault>
    requires { first + 305 * count ≤ 2 ^ 32 }
    ensures { ended (reading.many (reading.shown marked) index_of 0 count s.now first) ≡ end_part result }
{
    if marked {
        scan_items::<MarkedEntry>(s, first, count)
    } else {
        scan_items::<Entry>(s, first, count)
    }
}
