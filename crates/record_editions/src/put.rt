// A view written into a lent buffer in the other edition. Its entries are moved in runs of bits: an entry's index and term, and its
// content length with its content; between them the other edition has a mark where this one has none.
ghost use Rattle.std.specs.Prelude.{◌≡◌, ◌+◌, ◌*◌, ◌^◌, ◌≤◌, true, false, length, []};
ghost use Rattle.model.specs.Sizes.{index_limit};
ghost use Rattle.record_entries.specs.BitLayout as places;
ghost use Rattle.record_entries.specs.BitLayout.{bits_of, first_entry, mark_width, entries_at, Walk};
ghost use Rattle.record_entries.specs.Values.{Here};
ghost use Rattle.record_writing.specs.Puts.{put_spans};
ghost use Rattle.record_writing.specs.Spans.{total, mark_spans, unmarked};
ghost use Rattle.record_writing.specs.Format.{view_kind};
ghost use Rattle.record_editions.specs.Turned.{entry_turned, entries_turned, view_turned};

use crate::runs::move_bits;
use record_entries::view::{View, ViewBytes};
use record_entries::walk::{FIRST_ENTRY, next_at};
use record_writing::put::put_bits;

// The bits of an entry's index and term, behind which its mark stands where it is shown.
pub const HEAD: usize = 42;

// The mark of a portion record, where it is shown.
fn put_mark(t: &mut [u8], at: usize, marked: bool)
    requires { at + mark_width marked ≤ 8 * length t.old }
    ensures { t.new ≡ put_spans t.old at (mark_spans marked false []) }
{
    if marked {
        put_bits(t, at, 1, 0);
    }
}

// The entry at bit `from`, a portion record that ends before bit `next`, from bit `at` on: the bit after it.
fn put_entry(t: &mut [u8], at: usize, view: ViewBytes<'_>, from: usize, next: usize) -> usize
    requires here { Here (bits_of view.bytes.now view.marked) from }
    requires next { next ≡ places.next_at (bits_of view.bytes.now view.marked) from }
    requires portion { places.mark_at (bits_of view.bytes.now view.marked) from ≡ false }
    requires room { (at + total (entry_turned (bits_of view.bytes.now view.marked) from) ≤ 8 * length t.old) × (at ≤ 2 ^ 32) }
    ensures written { t.new ≡ put_spans t.old at (entry_turned (bits_of view.entry.bytes.now view.entry.marked) from) }
    ensures next { result ≡ at + total (entry_turned (bits_of view.entry.bytes.now view.entry.marked) from) }
{
    let own = HEAD + usize::from(view.marked);
    let other = HEAD + usize::from(!view.marked);
    let tail = next - (from + own);
    move_bits(t, at, view.bytes, from, HEAD);
    put_mark(t, at + HEAD, !view.marked);
    move_bits(t, at + other, view.bytes, from + own, tail);
    at + other + tail
}

// Its entries, which are portion records.
fn put_entries(t: &mut [u8], view: ViewBytes<'_>, count: usize)
    requires walk { Walk (bits_of view.bytes.now view.marked) first_entry count }
    requires portions { unmarked (entries_at (bits_of view.bytes.now view.marked) first_entry count) ≡ true }
    requires room { (first_entry + total (entries_turned (bits_of view.bytes.now view.marked) first_entry count) ≤ 8 * length t.old) × (count ≤ index_limit) }
    ensures { t.new ≡ put_spans t.old first_entry (entries_turned (bits_of view.entry.bytes.now view.entry.marked) first_entry count) }
{
    let mut at = FIRST_ENTRY;
    let mut from = FIRST_ENTRY;
    for _ in 0..count {
        let next = next_at(view, from);
        at = put_entry(t, at, view, from, next);
        from = next;
    }
}

// The kind of a view.
const fn kind(marked: bool) -> u64
    ensures { result ≡ view_kind marked }
{
    if marked { 9 } else { 1 }
}

// The view, from the buffer's start.
pub fn put_view(t: &mut [u8], view: View<'_>)
    requires portions { unmarked (entries_at (bits_of view.shown.bytes.now view.shown.marked) first_entry view.entries) ≡ true }
    requires room { (total (view_turned (bits_of view.shown.bytes.now view.shown.marked) view.node.0 view.entries) ≤ 8 * length t.old) × (view.entries ≤ index_limit) }
    ensures { t.new ≡ put_spans t.old 0 (view_turned (bits_of view.entry.shown.bytes.now view.entry.shown.marked) view.entry.node.0 view.entry.entries) }
{
    put_bits(t, 0, 4, kind(!view.shown.marked));
    put_bits(t, 4, 6, u64::from(view.node.0));
    put_bits(t, 10, 10, view.entries as u64);
    put_entries(t, view.shown, view.entries);
}
