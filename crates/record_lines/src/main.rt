// The writer for people: lines of numbers from standard input, a record each, become a recording on standard output. A line
// that is no record is told on standard error, and the next one follows. What a line's numbers bring to the recording is proved;
// that a line's numbers are those of its digits, and that every line is taken, is tried (tests/commands).
#![tactic(auto)]

ghost use Rattle.std.specs.Prelude.{◌≤◌, ◌<◌, IfOk, OnOk, length};
ghost use Rattle.std.specs.Io.KnownBytes.{Appends};
ghost use Rattle.record_lines.specs.Lines.{piece, line_piece};

use input_blocks::fill;
use record_writing::write::write;
use std::io;
use std::io::{Read, Write};

// No recording has so many lines, and none takes so many blocks.
const LOOP_BOUND: u64 = 18446744073709551000;

// The bytes of input held. Memory is fixed: arrays, and no Vec.
const INPUT: usize = 65536;

// The numbers of a line that are kept: one more than the longest record has, so that a longer line goes on as this many do.
const MOST_NUMBERS: usize = 8964;

// The bytes of the longest record.
const RECORD: usize = 9731;

// How far a line is: its number, how many numbers of it are kept, and the one whose digits are being read.
#[derive(Clone, Copy)]
struct Line {
    place: u64,
    count: usize,
    number: u64,
    open: bool,
    comment: bool,
    unreadable: bool,
}

fn new_line(place: u64) -> Line
    ensures { result.count ≤ 8964 }
{
    Line {
        place,
        count: 0,
        number: 0,
        open: false,
        comment: false,
        unreadable: false,
    }
}

// A number ends where a blank, a comment or the line's end comes.
fn end_number(line: Line, fields: &mut [u64; MOST_NUMBERS]) -> Line
    requires { line.count ≤ 8964 }
    ensures { result.count ≤ 8964 }
{
    let mut next = line;
    next.number = 0;
    next.open = false;
    if line.open && line.count < MOST_NUMBERS {
        fields[line.count] = line.number;
        next.count = line.count + 1;
    }
    next
}

// A digit more. A number past 64 bits stays the greatest one: no field holds either.
fn with_digit(line: Line, digit: u8) -> Line
    requires { line.count ≤ 8964 }
    ensures { result.count ≤ 8964 }
{
    let mut next = line;
    next.open = true;
    next.number = line
        .number
        .saturating_mul(10)
        .saturating_add(u64::from(digit));
    next
}

// One byte of a line.
fn take_byte(line: Line, fields: &mut [u64; MOST_NUMBERS], b: u8) -> Line
    requires { line.count ≤ 8964 }
    ensures { result.count ≤ 8964 }
{
    if line.comment {
        return line;
    }
    match b {
        b'0'..=b'9' => with_digit(line, b - b'0'),
        b' ' | b'\t' | b'\r' => end_number(line, fields),
        b'#' => {
            let mut next = end_number(line, fields);
            next.comment = true;
            next
        }
        _ => {
            let mut next = line;
            next.unreadable = true;
            next
        }
    }
}

// A record behind its length in two bytes, high byte first.
fn put_piece<W: Write>(writer: &mut W, record: &[u8]) -> io::Result<()>
    requires { length record.now < 65536 }
    ensures { OnOk result (Appends (W.contents writer.old) (W.contents writer.new) (piece record.now)) }
{
    writer.write_all(&(record.len() as u16).to_be_bytes())?;
    writer.write_all(record)
}

// A line's record, or why it is none. An empty line is nothing.
fn end_line<W: Write, E: Write>(
    writer: &mut W,
    errors: &mut E,
    line: Line,
    fields: &[u64; MOST_NUMBERS],
) -> io::Result<()>
    requires { line.count ≤ 8964 }
    ensures { OnOk result (Appends (W.contents writer.old) (W.contents writer.new) (line_piece line fields.now)) }
{
    let place = line.place;
    if line.unreadable {
        return writeln!(errors, "write: line {place}: not numbers");
    }
    if line.count == 0 {
        return Ok(());
    }
    let mut record = [0u8; RECORD];
    match write(&fields[..line.count], &mut record) {
        Ok(n) => put_piece(writer, &record[..n]),
        Err(f) => {
            let refusal = u8::from(f);
            writeln!(errors, "write: line {place}: refusal {refusal}")
        }
    }
}

// The lines that end within a block, in turn: the line that goes on.
fn take_block<W: Write, E: Write>(
    writer: &mut W,
    errors: &mut E,
    block: &[u8],
    fields: &mut [u64; MOST_NUMBERS],
    first: Line,
) -> io::Result<Line>
    requires { first.count ≤ 8964 }
    ensures { IfOk result (λ line. line.count ≤ 8964) }
{
    let mut line = first;
    for b in block {
        if *b == b'\n' {
            let last = end_number(line, fields);
            end_line(writer, errors, last, fields)?;
            line = new_line(line.place.saturating_add(1));
        } else {
            line = take_byte(line, fields, *b);
        }
    }
    Ok(line)
}

// The input block by block, to its end, which also ends a line.
fn take_input<R: Read, W: Write, E: Write>(
    reader: &mut R,
    writer: &mut W,
    errors: &mut E,
    input: &mut [u8; INPUT],
    fields: &mut [u64; MOST_NUMBERS],
) -> io::Result<()> {
    let mut line = new_line(1);
    for _ in 0..LOOP_BOUND {
        let got = fill(reader, &mut input[..])?;
        if got == 0 {
            break;
        }
        line = take_block(writer, errors, &input[..got], fields, line)?;
    }
    let last = end_number(line, fields);
    end_line(writer, errors, last, fields)
}

fn main(rt: HostRuntime) -> io::Result<()> {
    let mut input = [0u8; INPUT];
    let mut fields = [0u64; MOST_NUMBERS];
    let mut reader = rt.stdin();
    let mut writer = rt.stdout();
    let mut errors = rt.stderr();
    take_input(
        &mut reader,
        &mut writer,
        &mut errors,
        &mut input,
        &mut fields,
    )
}
