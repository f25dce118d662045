// Reads cases from standard input, a line each: a name, a space and a record in hexadecimal. Writes for each its name and
// `ok`, or the number of its first fault. tests/record_limits.py wrote the cases and what is to come out.
#![tactic(auto)]

ghost use Rattle.std.specs.Prelude.{◌≡◌, ◌<◌, ◌≤◌, IfSome, length, take};

use input_blocks::fill;
use record_bits::bits::Fault;
use record_reading::head::read;
use std::io;
use std::io::Write;

// The bytes of input that are read. Memory is fixed: arrays, and no Vec.
const INPUT: usize = 65536;

// What a hexadecimal digit stands for, 0 for any other byte: the kit's `hex` refuses those.
fn digit(b: u8) -> u8
    ensures { result ≤ 15 }
{
    match b {
        b'0'..=b'9' => b - b'0',
        b'a'..=b'f' => b - b'a' + 10,
        _ => 0,
    }
}

// The bytes whose digits are given, as many as there is room for; answers how many.
fn decode(digits: &[u8], out: &mut [u8]) -> usize
    ensures bound { result ≤ length out.new }
    ensures counted { result ≡ length (take result out.new) }
{
    for (byte, pair) in out.iter_mut().zip(digits.chunks_exact(2)) {
        *byte = digit(pair[0]) * 16 + digit(pair[1]);
    }
    out.len().min(digits.len() / 2)
}

// The first fault of the record whose digits are given.
fn fault(digits: &[u8]) -> Option<Fault> {
    let mut record = [0u8; 16384];
    let n = decode(digits, &mut record);
    read(&record[..n]).err()
}

// One case.
fn say<W: Write>(writer: &mut W, name: &[u8], fault: Option<Fault>) -> io::Result<()> {
    writer.write_all(name)?;
    match fault {
        None => writeln!(writer, " ok"),
        Some(f) => writeln!(writer, " {}", u8::from(f)),
    }
}

// The place of the first byte b.
fn find(s: &[u8], b: u8) -> Option<usize>
    ensures { IfSome result (λ i. i < length s.now) }
{
    s.iter().position(|x| *x == b)
}

// All cases.
fn run<W: Write>(writer: &mut W, s: &[u8]) -> io::Result<()> {
    let mut rest = s;
    // a line begins where the one before it ends: no index is counted; `split_inclusive` gives lines, and a name goes on to its space
    while let Some(space) = find(rest, b' ') {
        let (name, record) = (&rest[..space], &rest[space + 1..]);
        let Some(end) = find(record, b'\n') else {
            break;
        };
        say(writer, name, fault(&record[..end]))?;
        rest = &record[end + 1..];
    }
    Ok(())
}

fn main(rt: HostRuntime) -> io::Result<()> {
    let mut input = [0u8; INPUT];
    let n = fill(&mut rt.stdin(), &mut input)?;
    run(&mut rt.stdout(), &input[..n])
}
