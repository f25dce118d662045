// The entries and rows of a readable record, by value, each with the bit after it, and the last index of a view. A walk
// starts at FIRST_ENTRY or FIRST_ROW with the count that `record_reading::head::read` gave.
ghost use Rattle.std.specs.Prelude.{◌≡◌, ◌+◌, ◌*◌, ◌^◌, ◌≤◌, cond, length, take};
ghost use Rattle.model.specs.Reading as reading;
ghost use Rattle.model.specs.Reading.{field_at};
ghost use Rattle.model.specs.Record as model;
ghost use Rattle.record_entries.specs.BitLayout as places;
ghost use Rattle.record_entries.specs.BitLayout.{bits_of};
ghost use Rattle.record_entries.specs.Values.{padded, shown_entry, configuration_value, row_value, Here, RowHere, EntryTaken};
ghost use Rattle.std.specs.Iterator.{at_most};
ghost use Rattle.model.specs.Sizes.{content_limit};

use crate::view::ViewBytes;
use record_bits::bits::bits_at;
use units::{CONTENT_LIMIT, LogIndex, NodeId, Term};

// Where a view's entries begin, in bits.
pub const FIRST_ENTRY: usize = 20;

// Where the rows begin, in bits.
pub const FIRST_ROW: usize = 14;

// An entry of a view, with the index it was shown under and the bit after it; it extends no prefix yet, as a stored row does. Of
// the content's 32 bytes the first `length` count; the others are zero: memory is fixed, and an entry is copied whole, which the
// kit's ArrayVec cannot be. That they are at most 32 is asked and no fact of the type: the definitions make an entry of any bits.
// The content stands first, so that a copy of 16 bytes at a time does not split its beginning.
#[derive(Clone, Copy)]
pub struct ShownEntry {
    pub content: [u8; CONTENT_LIMIT],
    pub index: LogIndex,
    pub term: Term,
    pub configuration: bool,
    pub length: u8,
    pub next: usize,
}

impl ShownEntry {
    // The bytes that count.
    pub fn content(&self) -> &[u8]
        requires { self.now.length ≤ content_limit }
        ensures { result.now ≡ take self.now.length self.now.content }
    {
        &self.content[..usize::from(self.length)]
    }

    // Its mark as it is stored: 1 for a configuration entry, 0 for a portion record.
    pub fn mark(&self) -> u8
        ensures { result ≡ cond self.now.configuration 1 0 }
    {
        u8::from(self.configuration)
    }
}

// A configuration that a row has.
#[derive(Clone, Copy)]
pub struct Configuration {
    pub index: LogIndex,
    pub identity: u32,
}

// A row, with the bit after it.
#[derive(Clone, Copy)]
pub struct Row {
    pub node: NodeId,
    pub floor: LogIndex,
    pub commit: LogIndex,
    pub last: LogIndex,
    pub floor_configuration: Option<Configuration>,
    pub actual_configuration: Option<Configuration>,
    pub next: usize,
}

// The n bytes from bit `at` on, each through a window of two bytes, and zeros after them. Where `at` begins a byte, both
// bytes of the window are that one.
#[tactic(auto, unfolding(model::specs::Reading::bytes_at))]
fn content_at(s: &[u8], at: usize, n: usize) -> [u8; CONTENT_LIMIT]
    requires { (n ≤ content_limit) × (at ≤ 2 ^ 33) × (at + 8 * n ≤ 8 * length s.now) }
    ensures { result ≡ padded (reading.bytes_at s.now at n) n }
{
    let first = at / 8;
    let second = (at + 7) / 8;
    let shift = 8 - at % 8;
    let mut out = [0u8; CONTENT_LIMIT];
    for i in 0..n {
        let window = u16::from(s[first + i]) * 256 + u16::from(s[second + i]);
        out[i] = ((window >> shift) % 256) as u8;
    }
    out
}

// The index of the entry at bit `at`. Readers of one entry ask that its bits are there: a type of such places would be made at each step
// of a walk.
pub fn index_at(view: ViewBytes<'_>, at: usize) -> LogIndex
    requires { Here (bits_of view.bytes.now view.marked) at }
    ensures { result.0 ≡ places.index_at (bits_of view.entry.bytes.now view.entry.marked) at }
{
    LogIndex(bits_at(view.bytes, at, 10) as usize)
}

// The bit after the entry at bit `at`.
pub fn next_at(view: ViewBytes<'_>, at: usize) -> usize
    requires { Here (bits_of view.bytes.now view.marked) at }
    ensures { result ≡ places.next_at (bits_of view.entry.bytes.now view.entry.marked) at }
{
    let m = usize::from(view.marked);
    at + (48 + m) + 8 * bits_at(view.bytes, at + (42 + m), 6) as usize
}

// An entry's mark and its content length, of which the mark stands first where it is shown.
#[derive(Clone, Copy)]
struct Tail {
    configuration: bool,
    length: u8,
}

// They of the entry at bit `at`, the 48 bits from there being `head`.
#[tactic(auto, using(crate::proofs::Tails::unmarked, crate::proofs::Tails::unmarked_length, crate::proofs::Tails::marked_mark, crate::proofs::Tails::marked_length))]
#[inline(always)]
fn tail_at(view: ViewBytes<'_>, at: usize, head: u64) -> Tail
    requires { Here (bits_of view.bytes.now view.marked) at × (head ≡ field_at view.bytes.now at 48) }
    ensures configuration { result.configuration ≡ places.mark_at (bits_of view.entry.bytes.now view.entry.marked) at }
    ensures length { result.length ≡ places.length_at (bits_of view.entry.bytes.now view.entry.marked) at }
{
    if !view.marked {
        return Tail {
            configuration: false,
            length: (head % 64) as u8,
        };
    }
    let tail = bits_at(view.bytes, at + 42, 7);
    Tail {
        configuration: tail >= 64,
        length: (tail % 64) as u8,
    }
}

// The entry at bit `at`. Its index, its term and the six bits after them are taken at once: its content length, or where its mark
// is shown that and the length's first bits. In line, so that a walk which uses no content copies none.
#[tactic(auto, using(record_bits::proofs::Widths::head_parts))]
#[inline(always)]
pub fn entry_at(view: ViewBytes<'_>, at: usize) -> ShownEntry
    requires { Here (bits_of view.bytes.now view.marked) at }
    ensures { result ≡ shown_entry (bits_of view.entry.bytes.now view.entry.marked) at }
{
    let head = bits_at(view.bytes, at, 48);
    let tail = tail_at(view, at, head);
    let n = usize::from(tail.length);
    let first = at + (48 + usize::from(view.marked));
    let content = content_at(view.bytes, first, n);
    ShownEntry {
        content,
        index: LogIndex((head >> 38) as usize),
        term: Term(((head >> 6) % 4294967296) as u32),
        configuration: tail.configuration,
        length: tail.length,
        next: first + 8 * n,
    }
}

// The entries of a view that are left to walk, from bit `next` on. It is made of its parts where a walk begins: a view's, or those of a
// place along its front.
#[derive(Drop)]
pub struct Entries<'a> {
    pub view: ViewBytes<'a>,
    pub next: usize,
    pub left: usize,
}

impl<'a> Iterator for Entries<'a> {
    type Item = ShownEntry;

    ghost can_next = { λ w. places.Walk (bits_of w.view.bytes.now w.view.marked) w.next w.left };

    ghost next_gives = { λ w r t. EntryTaken (bits_of w.view.bytes.now w.view.marked) w.next w.left r (bits_of t.view.bytes.now t.view.marked) t.next t.left };

    ghost remaining = { λ w. at_most w.left };

    // in line, as `entry_at` is
    #[inline(always)]
    fn next(&mut self) -> Option<ShownEntry> {
        if self.left == 0 {
            return None;
        }
        let e = entry_at(self.view, self.next);
        self.next = e.next;
        self.left -= 1;
        Some(e)
    }
}

// The configuration at bit `at`, where one is present.
#[tactic(auto, using(record_bits::proofs::Widths::field_lt))]
fn configuration_at(s: &[u8], at: usize) -> Option<Configuration>
    requires { (at ≤ 2 ^ 33) × (at + 43 ≤ 8 * length s.now) }
    ensures { result ≡ configuration_value s.now at }
{
    let p = bits_at(s, at, 1);
    let i = bits_at(s, at + 1, 10);
    let d = bits_at(s, at + 11, 32);
    let configuration = Configuration {
        index: LogIndex(i as usize),
        identity: d as u32,
    };
    (p == 1).then_some(configuration)
}

// The row at bit `at`. Units are made of their bits on the spot, as a readable record's are within their limits.
#[tactic(auto, using(record_bits::proofs::Widths::field_lt))]
pub fn row_at(s: &[u8], at: usize) -> Row
    requires { RowHere s.now at }
    ensures { result ≡ row_value s.now at }
{
    let n = bits_at(s, at, 6);
    let f = bits_at(s, at + 6, 10);
    let c = bits_at(s, at + 16, 10);
    let l = bits_at(s, at + 26, 10);
    let floor = configuration_at(s, at + 36);
    let actual = configuration_at(s, at + 79);
    Row {
        node: NodeId(n as u8),
        floor: LogIndex(f as usize),
        commit: LogIndex(c as usize),
        last: LogIndex(l as usize),
        floor_configuration: floor,
        actual_configuration: actual,
        next: at + 122,
    }
}

// The index of the last of `count` entries from bit `from` on, past a gap too; `before` where there is none. It reads the indexes alone:
// `Entries` would copy each content.
pub fn last_index(view: ViewBytes<'_>, from: usize, count: usize, before: LogIndex) -> LogIndex
    requires { places.Walk (bits_of view.bytes.now view.marked) from count }
    ensures { result.0 ≡ model.last_from before.0 (places.entries_at (bits_of view.entry.bytes.now view.entry.marked) from count) }
{
    let mut at = from;
    let mut last = before;
    for _ in 0..count {
        last = index_at(view, at);
        at = next_at(view, at);
    }
    last
}
