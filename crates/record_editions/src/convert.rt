// The converter: a record in the edition of views that is wanted.
ghost use Rattle.std.specs.Prelude.{◌≡◌};
ghost use Rattle.model.specs.Reading.{read};
ghost use Rattle.record_writing.specs.Writing.{Gives, put_record};
ghost use Rattle.record_editions.specs.Numbers.{number_of};
ghost use Rattle.record_editions.specs.Editions.{edition_of, put_edition, Converts};

use crate::refusal::Refusal;
use crate::turn::turn;
use record_entries::view::{View, ViewBytes};
use record_reading::head::{Head, read};

// Whether the views of an edition show marks.
fn wanted(edition: u8) -> Option<bool>
    ensures { result ≡ edition_of edition }
{
    match edition {
        1 => Some(false),
        9 => Some(true),
        _ => None,
    }
}

// The record as it is.
fn copy(s: &[u8], buffer: &mut [u8]) -> Result<usize, Refusal>
    ensures { Gives number_of (put_record buffer.old s.now) result buffer.new }
{
    let length = s.len();
    if buffer.len() < length {
        return Err(Refusal::BufferTooShort);
    }
    buffer[..length].copy_from_slice(s);
    Ok(length)
}

// The record in an edition. Only a view of the other one is turned.
fn put_edition(marked: bool, s: &[u8], buffer: &mut [u8]) -> Result<usize, Refusal>
    ensures { Gives number_of (put_edition marked buffer.old (read s.now)) result buffer.new }
{
    let Head::View { node, count } = read(s)? else {
        return copy(s, buffer);
    };
    let shown = ViewBytes::of(s);
    if shown.marked == marked {
        return copy(s, buffer);
    }
    let view = View {
        shown,
        entries: count,
        node,
    };
    turn(view, buffer)
}

// A record into the buffer, from its start, in the edition wanted, 1 or 9: how many bytes it has there. Where it is refused, the
// buffer is as it was.
pub fn convert(edition: u8, s: &[u8], buffer: &mut [u8]) -> Result<usize, Refusal>
    ensures { Converts edition s.now buffer.old result buffer.new }
{
    let Some(marked) = wanted(edition) else {
        return Err(Refusal::Edition);
    };
    put_edition(marked, s, buffer)
}
