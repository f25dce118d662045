// The lines of the sheet, each put behind the one before it. They are put by hand and not by `write!`, which answers a Result: a line
// that has its room cannot fail.
ghost use Rattle.std.specs.Prelude.{◌+◌, ◌≤◌, ◌++◌, length};
ghost use Rattle.sheet_lines.specs.Filled.{Filled};
ghost use Rattle.sheet_lines.specs.Lines.{field, line_end, outcome, record_line, finding_line, leader_line, unseen_line, unknown_line, committed_line, field_room, last_room, pair_room, record_room, finding_room, leader_room, unseen_room, unknown_room, committed_room};

use crate::decimal::Sheet;
use answers::numbers::Reply;
use storage_rows::findings::Found;
use units::{LogIndex, NodeId, Term};

// A number behind a space.
fn put_field(sheet: &mut Sheet<'_>, v: u64)
    requires { sheet.old.end + field_room ≤ length sheet.old.out.now }
    ensures { Filled field_room sheet.old (field v) sheet.new }
{
    sheet.put_text(b" ");
    sheet.put_decimal(v);
}

// The last number of a line, and its end.
fn put_last(sheet: &mut Sheet<'_>, v: u64)
    requires { sheet.old.end + last_room ≤ length sheet.old.out.now }
    ensures { Filled last_room sheet.old (field v ++ line_end) sheet.new }
{
    put_field(sheet, v);
    sheet.put_text(b"\n");
}

// The last two numbers of a line, and its end.
fn put_pair(sheet: &mut Sheet<'_>, v: u64, w: u64)
    requires { sheet.old.end + pair_room ≤ length sheet.old.out.now }
    ensures { Filled pair_room sheet.old (field v ++ field w ++ line_end) sheet.new }
{
    put_field(sheet, v);
    put_last(sheet, w);
}

// The refusal is a number: a Reply is what callers in C read, and any Reply can be printed.
fn put_outcome(sheet: &mut Sheet<'_>, refusal: u8)
    requires { sheet.old.end + field_room ≤ length sheet.old.out.now }
    ensures { Filled field_room sheet.old (outcome refusal) sheet.new }
{
    if refusal == 0 {
        sheet.put_text(b" ok");
    } else {
        put_field(sheet, u64::from(refusal));
    }
}

// Number, kind, `ok` or refusal, value, node. The kind is four bits of the record as it came: one of no known kind has its line too.
pub fn put_record(sheet: &mut Sheet<'_>, number: u64, kind: u8, r: Reply)
    requires { sheet.old.end + record_room ≤ length sheet.old.out.now }
    ensures { Filled record_room sheet.old (record_line number kind r) sheet.new }
{
    sheet.put_decimal(number);
    put_field(sheet, u64::from(kind));
    put_outcome(sheet, r.refusal);
    put_pair(sheet, r.value as u64, u64::from(r.node));
}

pub fn put_finding(sheet: &mut Sheet<'_>, f: Found)
    requires { sheet.old.end + finding_room ≤ length sheet.old.out.now }
    ensures { Filled finding_room sheet.old (finding_line f.name f.node.0 f.index.0 f.term.0) sheet.new }
{
    sheet.put_text(b"LG-0");
    sheet.put_decimal(f.name as u64);
    put_field(sheet, u64::from(f.node.0));
    put_pair(sheet, f.index.0 as u64, u64::from(f.term.0));
}

// The named lines differ in their word: one function would take it at each call, where its name stands now.
pub fn put_leader(sheet: &mut Sheet<'_>, term: Term, leader: NodeId)
    requires { sheet.old.end + leader_room ≤ length sheet.old.out.now }
    ensures { Filled leader_room sheet.old (leader_line term.0 leader.0) sheet.new }
{
    sheet.put_text(b"leader");
    put_pair(sheet, u64::from(term.0), u64::from(leader.0));
}

pub fn put_unseen(sheet: &mut Sheet<'_>, node: NodeId, index: LogIndex)
    requires { sheet.old.end + unseen_room ≤ length sheet.old.out.now }
    ensures { Filled unseen_room sheet.old (unseen_line node.0 index.0) sheet.new }
{
    sheet.put_text(b"unseen");
    put_pair(sheet, u64::from(node.0), index.0 as u64);
}

pub fn put_unknown(sheet: &mut Sheet<'_>, index: LogIndex)
    requires { sheet.old.end + unknown_room ≤ length sheet.old.out.now }
    ensures { Filled unknown_room sheet.old (unknown_line index.0) sheet.new }
{
    sheet.put_text(b"unknown");
    put_last(sheet, index.0 as u64);
}

pub fn put_committed(sheet: &mut Sheet<'_>, end: LogIndex, owner: NodeId)
    requires { sheet.old.end + committed_room ≤ length sheet.old.out.now }
    ensures { Filled committed_room sheet.old (committed_line end.0 owner.0) sheet.new }
{
    sheet.put_text(b"committed");
    put_pair(sheet, end.0 as u64, u64::from(owner.0));
}
