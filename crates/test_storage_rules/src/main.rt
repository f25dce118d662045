// The storage rules shown at work: a history that holds something is accepted whole, and each rule, broken by one byte, is
// answered 12 by the library. Bytes that stand for nothing may be anything. The cases come from standard input, which says its
// own form.
#![tactic(auto)]

ghost use Rattle.std.specs.Prelude.{◌+◌, ◌≤◌, length};

use history::exports::gamiwhoru_committed;
use input_blocks::fill;
use std::io;
use std::io::Write;
use storage_bytes::layout::HISTORY_LENGTH;

// The bytes of input that are read, and those that hold the history. Memory is fixed: arrays, and no Vec.
const ROOM: usize = 65536;

// A piece of a line: the number that its digits make, and where it ends.
#[derive(Clone, Copy)]
struct Piece {
    number: usize,
    end: usize,
}

// The piece from `from` on, up to the first byte below `least`. Its number is of its last five digits, each the low half
// of its byte. Without a digit it is 90000, which is no place: so a comment does nothing. An Option would be no plainer: a value may have
// no digit too, and then it is a byte like any other.
fn up_to(s: &[u8], from: usize, least: u8) -> Piece
    ensures { (from ≤ result.end) × (result.end ≤ from + length s.now) }
{
    let rest = &s[from.min(s.len())..];
    let size = rest.iter().position(|b| *b < least).unwrap_or(rest.len());
    let digits = rest[..size].iter();
    Piece {
        number: digits.fold(90000, |n, b| n % 10000 * 10 + usize::from(*b % 16)),
        end: from + size,
    }
}

// The text, and what a reader of the library answers. The byte behind the history is 1 where its last byte is left out.
fn say<W: Write>(writer: &mut W, history: &[u8; ROOM], text: &[u8]) -> io::Result<()> {
    writer.write_all(text)?;
    let end = HISTORY_LENGTH - usize::from(history[HISTORY_LENGTH] % 2);
    let reply = gamiwhoru_committed(&history[..end]);
    if reply.state == 0 {
        writeln!(writer, " accepted")
    } else {
        let state = reply.state;
        writeln!(writer, " {state}")
    }
}

// One byte is set. Where there is a text, behind a space, it and the answer are written, and the byte is put back.
fn put<W: Write>(
    writer: &mut W,
    history: &mut [u8; ROOM],
    at: usize,
    value: usize,
    text: &[u8],
) -> io::Result<()> {
    if history.len() <= at {
        return Ok(());
    }
    let kept = history[at];
    history[at] = (value % 256) as u8;
    let Some((_, text)) = text.split_first() else {
        return Ok(());
    };
    let said = say(writer, history, text);
    history[at] = kept;
    said
}

// All lines. One that does not end is passed over.
fn run<W: Write>(writer: &mut W, s: &[u8], history: &mut [u8; ROOM]) -> io::Result<()>
    requires { length s.now ≤ 65536 }
{
    let mut at = 0;
    // a line begins where the one before it ends: no index is counted
    while at < s.len() {
        let place = up_to(s, at, b'0');
        let value = up_to(s, place.end + 1, b'0');
        let text = value.end;
        let line = up_to(s, text, b' ');
        let end = line.end;
        if s.len() <= end {
            return Ok(());
        }
        put(writer, history, place.number, value.number, &s[text..end])?;
        at = end + 1;
    }
    Ok(())
}

// The history is the start of a longer buffer of zeros.
fn main(rt: HostRuntime) -> io::Result<()> {
    let mut input = [0u8; ROOM];
    let n = fill(&mut rt.stdin(), &mut input)?;
    let mut history = [0u8; ROOM];
    run(&mut rt.stdout(), &input[..n], &mut history)
}
