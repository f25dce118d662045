// A view turned into the other edition. All is looked at before the first bit is written.
ghost use Rattle.std.specs.Prelude.{◌≡◌, ◌≤◌, ◌^◌, not};
ghost use Rattle.model.specs.Sizes.{index_limit};
ghost use Rattle.model.specs.Reading.{readable};
ghost use Rattle.record_entries.specs.BitLayout as places;
ghost use Rattle.record_entries.specs.BitLayout.{bits_of, first_entry, Walk};
ghost use Rattle.record_entries.specs.Values.{Here};
ghost use Rattle.record_writing.specs.Spans.{total};
ghost use Rattle.record_writing.specs.Writing.{Gives};
ghost use Rattle.record_editions.specs.Numbers.{number_of};
ghost use Rattle.record_editions.specs.Editions.{put_edition};
ghost use Rattle.record_editions.specs.Turned.{other, portions_end, view_of, view_turned};

use crate::put::{HEAD, put_view};
use crate::refusal::Refusal;
use record_bits::bits::bits_at;
use record_entries::view::{View, ViewBytes};
use record_entries::walk::{FIRST_ENTRY, next_at};

// Whether the entry at bit `at` is a portion record.
fn is_portion(view: ViewBytes<'_>, at: usize) -> bool
    requires { Here (bits_of view.bytes.now view.marked) at }
    ensures { result ≡ not (places.mark_at (bits_of view.entry.bytes.now view.entry.marked) at) }
{
    !view.marked || bits_at(view.bytes, at + HEAD, 1) == 0
}

// The bit after the last entry, where each is a portion record.
fn portions_end(view: ViewBytes<'_>, count: usize) -> Option<usize>
    requires { Walk (bits_of view.bytes.now view.marked) first_entry count }
    ensures { result ≡ portions_end (bits_of view.entry.bytes.now view.entry.marked) first_entry count }
{
    let mut at = FIRST_ENTRY;
    for _ in 0..count {
        if !is_portion(view, at) {
            return None;
        }
        at = next_at(view, at);
    }
    Some(at)
}

// The bits of the view in the other edition: one for each entry more or less.
fn turned_bits(view: View<'_>, end: usize) -> usize
    requires { (portions_end (bits_of view.shown.bytes.now view.shown.marked) first_entry view.entries ≡ Some end) × (view.entries ≤ index_limit) }
    ensures is { result ≡ total (view_turned (bits_of view.entry.shown.bytes.now view.entry.shown.marked) view.entry.node.0 view.entry.entries) }
    ensures near { result ≤ 2 ^ 33 }
{
    if view.shown.marked {
        end - view.entries
    } else {
        end + view.entries
    }
}

// The view in the other edition: how many bytes it has there.
pub fn turn(view: View<'_>, buffer: &mut [u8]) -> Result<usize, Refusal>
    requires { view.entries ≤ index_limit }
    ensures gives { Gives number_of (put_edition (other (bits_of view.entry.shown.bytes.now view.entry.shown.marked)) buffer.old
        (readable (view_of (bits_of view.entry.shown.bytes.now view.entry.shown.marked) view.entry.node.0 view.entry.entries))) result buffer.new }
{
    let Some(end) = portions_end(view.shown, view.entries) else {
        return Err(Refusal::Configured);
    };
    let length = (turned_bits(view, end) + 7) / 8;
    if buffer.len() < length {
        return Err(Refusal::BufferTooShort);
    }
    put_view(buffer, view);
    Ok(length)
}
