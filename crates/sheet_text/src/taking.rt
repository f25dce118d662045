// Pieces taken in turn: each record is handed to the history and its line put into the sheet.
ghost use Rattle.std.specs.Prelude.{◌+◌, ◌≤◌, length};
ghost use Rattle.sheet_lines.specs.Filled.{Filled};
ghost use Rattle.sheet_text.specs.Sheet.{cut_line, HandedOver, Taken, taken_most, taken_room};
ghost use Rattle.sheet_lines.specs.Lines.{record_room};

use crate::split::{Piece, piece_at};
use answers::answer::Refusal;
use answers::numbers::Reply;
use record_bits::bits::Fault;
use sheet_lines::decimal::Sheet;
use sheet_lines::lines::put_record;
use storage_bytes::layout::part;
use submission::submit::submit;

// So many records are taken at a time: their lines have room in the sheet.
pub const RECORDS_PER_WRITE: usize = 600;

// How far the records are taken: how many, and where the next begins in the block.
#[derive(Clone, Copy)]
pub struct Progress {
    pub count: usize,
    pub from: usize,
}

// The line of a piece that is cut, or has no bytes.
pub fn put_cut(sheet: &mut Sheet<'_>, number: u64)
    requires { sheet.old.end + record_room ≤ length sheet.old.out.now }
    ensures { Filled record_room sheet.old (cut_line number) sheet.new }
{
    let missing = Reply::from(Err(Refusal::Unreadable(Fault::BitsMissing)));
    put_record(sheet, number, 0, missing);
}

// A record handed to the history, and its line.
fn hand_over(history: &mut [u8], s: &[u8], sheet: &mut Sheet<'_>, number: u64)
    requires { sheet.old.end + record_room ≤ length sheet.old.out.now }
    ensures { HandedOver history.old s.now sheet.old number history.new sheet.new }
{
    let Some(first) = s.first() else {
        put_cut(sheet, number);
        return;
    };
    let kind = first / 16;
    let r = Reply::from(submit(history, s));
    put_record(sheet, number, kind, r);
}

// The whole pieces of a block from a place on, as many as are taken at a time, in turn, and their lines.
pub fn take_some(
    history: &mut [u8],
    block: &[u8],
    sheet: &mut Sheet<'_>,
    first: u64,
    start: usize,
) -> Progress
    requires { (start ≤ length block.now) × (sheet.old.end + taken_room ≤ length sheet.old.out.now) × (first + taken_most ≤ 18446744073709551615) }
    ensures { Taken history.old block.now sheet.old first start result history.new sheet.new }
{
    let mut from = start;
    for count in 0..RECORDS_PER_WRITE {
        let Piece::Whole { body, size } = piece_at(block, from) else {
            return Progress { count, from };
        };
        let s = part(block, body, size);
        hand_over(&mut history[..], s, sheet, first + count as u64);
        from = body + size;
    }
    Progress {
        count: RECORDS_PER_WRITE,
        from,
    }
}
