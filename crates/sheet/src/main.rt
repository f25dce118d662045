// The sheet of a recording: records from standard input, each behind a 16-bit byte length, high byte first; then the lists of
// the history. What it prints is put together by `sheet_text`, whose functions are proved to give it. What a block
// brings about is proved here; that the blocks are those of the input is left to its reads. A read or a write that fails ends the program.
#![tactic(auto)]

ghost use Rattle.std.specs.Prelude.{ℕ, ◌≡◌, ◌≤◌, ◌<◌, IfOk, OnOk, length, take};
ghost use Rattle.std.specs.Io.KnownBytes.{Appends};
ghost use Rattle.sheet_text.specs.Pieces.{piece_at};
ghost use Rattle.sheet_text.specs.declared.split.Piece as code;
ghost use Rattle.sheet.specs.Input.{BlockTaken};

use input_blocks::fill;
use sheet_lines::decimal::Sheet;
use sheet_text::closing::put_lists;
use sheet_text::split::move_down;
use sheet_text::taking::{RECORDS_PER_WRITE, put_cut, take_some};
use std::io;
use std::io::{Read, Write};
use storage_bytes::layout::{HISTORY_LENGTH, History, part};

// No recording has so many records, and none takes so many blocks.
const LOOP_BOUND: u64 = 18446744073709551000;

// The bytes of input held: more than the longest piece, of 65,537 bytes. Memory is fixed: an array, and no Vec.
const INPUT: usize = 131072;

// The bytes of output held, fixed as well: the lines of the records taken at a time, or all the lists.
const OUTPUT: usize = 65536;

// How far the sheet is: the number of the next record, and where it begins in the block. What is read, written and handed on is lent part by
// part: a struct of it would be generic over both ends.
#[derive(Clone, Copy)]
struct InputPosition {
    number: u64,
    from: usize,
}

// What a sheet has is written.
fn flush<W: Write>(writer: &mut W, sheet: &Sheet<'_>) -> io::Result<()>
    requires { sheet.now.end ≤ length sheet.now.out.now }
    ensures { OnOk result (Appends (W.contents writer.old) (W.contents writer.new) (take sheet.now.end sheet.now.out.now)) }
{
    writer.write_all(&sheet.out[..sheet.end])
}

// The whole pieces of a block in turn, their lines written some at a time: how far it came.
fn take_block<W: Write>(
    writer: &mut W,
    history: &mut History,
    block: &[u8],
    out: &mut [u8; OUTPUT],
    first: u64,
) -> io::Result<InputPosition>
    ensures taken { IfOk result (λ place. BlockTaken history.old block.now first (W.contents writer.old) (W.contents writer.new) place.number place.from history.new) }
    ensures stopped { IfOk result (λ place. place.number < 18446744073709551000 → (body size : ℕ) → piece_at block.now place.from ≡ code.Piece.Whole body size → ⊥) }
{
    let mut number = first;
    let mut from = 0;
    // the number goes on by as many as were taken, and is told in the sheet: no index is counted
    while number < LOOP_BOUND {
        let mut sheet = Sheet { out, end: 0 };
        let p = take_some(history, block, &mut sheet, number, from);
        flush(writer, &sheet)?;
        number += p.count as u64;
        from = p.from;
        if p.count < RECORDS_PER_WRITE {
            break;
        }
    }
    Ok(InputPosition { number, from })
}

// What is left where the input ends is a cut piece.
fn end_of_input<W: Write>(
    writer: &mut W,
    out: &mut [u8; OUTPUT],
    number: u64,
    rest: usize,
) -> io::Result<()> {
    if rest == 0 {
        return Ok(());
    }
    let mut sheet = Sheet { out, end: 0 };
    put_cut(&mut sheet, number);
    flush(writer, &sheet)
}

// The input block by block, to its end. The rest of a block, a piece that goes on in the next one, is moved to the front first.
fn take_input<R: Read, W: Write>(
    reader: &mut R,
    writer: &mut W,
    history: &mut History,
    input: &mut [u8; INPUT],
    out: &mut [u8; OUTPUT],
) -> io::Result<()> {
    let mut number: u64 = 1;
    let mut rest = 0;
    for _ in 0..LOOP_BOUND {
        let got = fill(reader, &mut input[rest..])?;
        if got == 0 {
            return end_of_input(writer, out, number, rest);
        }
        let to = rest + got;
        let block = part(input, 0, to);
        let p = take_block(writer, history, block, out, number)?;
        rest = move_down(input, p.from, to);
        number = p.number;
    }
    Ok(())
}

fn main(rt: HostRuntime) -> io::Result<()> {
    let mut input = [0u8; INPUT];
    let mut out = [0u8; OUTPUT];
    let mut history = [0u8; HISTORY_LENGTH];
    let mut reader = rt.stdin();
    let mut writer = rt.stdout();
    take_input(&mut reader, &mut writer, &mut history, &mut input, &mut out)?;
    let mut sheet = Sheet {
        out: &mut out,
        end: 0,
    };
    put_lists(&history, &mut sheet);
    flush(&mut writer, &sheet)
}
