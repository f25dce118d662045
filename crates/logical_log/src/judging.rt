// A view judged along its front (`observe_entries` of observation.rs), with nothing written: first as far as its prefixes are
// stored, then the rest, where none is.
ghost use Rattle.std.specs.Prelude.{◌≡◌, ◌+◌, ◌-◌, ◌≤◌};
ghost use Rattle.record_entries.specs.BitLayout.{bits_of, first_entry};
ghost use Rattle.storage.specs.Tables.{prefix_row};
ghost use Rattle.log_prefix.specs.Table.{Table};
ghost use Rattle.storage_rows.specs.Rows.{finding_value};
ghost use Rattle.logical_log.specs.Judging.{other, lg03, cursor_at, Walkable, ReachedAs, LackingAs, ViewJudged};

use log_prefix::comparison::same_prefix;
use log_prefix::table::Prefixes;
use log_violation::violation::Notes;
use record_entries::view::View;
use record_entries::walk::{Entries, FIRST_ENTRY, ShownEntry, entry_at};
use storage::stored::Stored;
use storage_rows::findings::{Found, LG_03};
use units::{LogIndex, LogPrefixWitness, NodeId, Term};

// A place along a front: the bit where its next entry begins, how many entries are left, the index that is next, and the
// last prefix before it that is stored.
#[derive(Clone, Copy)]
pub struct FrontCursor {
    pub at: usize,
    pub left: usize,
    pub index: LogIndex,
    pub prefix: LogPrefixWitness,
}

// What judging gives: how many prefixes of the front are not stored, the place before the first of them, and the findings.
#[derive(Clone, Copy)]
pub struct JudgedView {
    pub missing: usize,
    pub rest: FrontCursor,
    pub notes: Notes,
}

// The place before the first of `entries` entries.
fn first_cursor(entries: usize) -> FrontCursor
    ensures { result ≡ cursor_at first_entry entries 1 0 }
{
    FrontCursor {
        at: FIRST_ENTRY,
        left: entries,
        index: LogIndex(1),
        prefix: LogPrefixWitness::EMPTY,
    }
}

// The place one entry further, where the next one begins at bit `at` and `prefix` is the last stored one before it.
fn cursor_after(here: FrontCursor, at: usize, prefix: LogPrefixWitness) -> FrontCursor
    requires { (1 ≤ here.left) × (here.index.0 ≤ 257) }
    ensures { result ≡ cursor_at at (here.left - 1) (here.index.0 + 1) prefix.0 }
{
    FrontCursor {
        at,
        left: here.left - 1,
        index: LogIndex(here.index.0 + 1),
        prefix,
    }
}

// Another prefix than the given one is remembered for the index and term.
fn is_other(prefixes: Prefixes<'_>, index: LogIndex, term: Term, p: LogPrefixWitness) -> bool
    requires { Table prefixes.rows.now prefixes.count × (1 ≤ index.0) × (p.0 ≤ prefixes.count) }
    ensures { result ≡ other (prefix_row prefixes.entry.rows.now) prefixes.entry.count index.0 term.0 p.0 }
{
    let Some(remembered) = prefixes.first_of(index, term) else {
        return false;
    };
    !same_prefix(prefixes.rows, remembered, p)
}

// LG-03 of an entry.
fn lg03(node: NodeId, e: ShownEntry) -> Found
    ensures { finding_value result ≡ lg03 node.0 e.index.0 e.term.0 }
{
    Found {
        name: LG_03,
        node,
        index: e.index,
        term: e.term,
    }
}

// The walk along the front of a view as far as its prefixes are stored: the place where it ends. LG-03 is noted where another prefix
// is remembered for an entry (`reconcile_prefix`).
fn judge_stored(prefixes: Prefixes<'_>, view: View<'_>, notes: &mut Notes) -> FrontCursor
    requires { Table prefixes.rows.now prefixes.count }
    ensures { ReachedAs prefixes.entry.rows.now prefixes.entry.count (bits_of view.entry.shown.bytes.now view.entry.shown.marked) view.entry.entries view.entry.node.0 notes.old.rows notes.old.held notes.new.held result notes.new.rows }
{
    let mut here = first_cursor(view.entries);
    // the place is the answer: the second walk and the writing begin there, by its bit, its index and what is left, and a `Peekable` tells none
    while 0 < here.left {
        let e = entry_at(view.shown, here.at);
        if e.index != here.index {
            break;
        }
        let Some(next) = prefixes.find_extension(here.prefix, e) else {
            break;
        };
        if is_other(prefixes, e.index, e.term, next) {
            notes.note(lg03(view.node, e));
        }
        here = cursor_after(here, e.next, next);
    }
    here
}

// The walk along the rest of the front, whose prefixes are not stored: how many they are. LG-03 is noted where a prefix is
// remembered for an entry: it is another one than any that is not stored.
fn judge_missing(
    prefixes: Prefixes<'_>,
    view: View<'_>,
    rest: FrontCursor,
    notes: &mut Notes,
) -> usize
    requires { Table prefixes.rows.now prefixes.count × Walkable (bits_of view.shown.bytes.now view.shown.marked) prefixes.count rest }
    ensures { LackingAs prefixes.entry.rows.now prefixes.entry.count (bits_of view.entry.shown.bytes.now view.entry.shown.marked) rest.at rest.left rest.index.0 view.entry.node.0 notes.old.rows notes.old.held result notes.new.held notes.new.rows }
{
    let entries = Entries {
        view: view.shown,
        next: rest.at,
        left: rest.left,
    };
    let mut missing = 0;
    for e in entries {
        if e.index.0 != rest.index.0 + missing {
            break;
        }
        if prefixes.first_of(e.index, e.term).is_some() {
            notes.note(lg03(view.node, e));
        }
        missing += 1; // the answer, and no index
    }
    missing
}

// A view is judged against the history, on a copy of its findings, by both walks.
pub fn judge_view(history: Stored<'_>, view: View<'_>) -> JudgedView
    ensures { ViewJudged history.entry.bytes.now (bits_of view.entry.shown.bytes.now view.entry.shown.marked) view.entry.entries view.entry.node.0 result.missing result.notes.held result.rest result.notes.rows }
{
    let bytes = history.bytes;
    let prefixes = Prefixes::of(bytes);
    let mut notes = Notes::of(bytes);
    let rest = judge_stored(prefixes, view, &mut notes);
    let missing = judge_missing(prefixes, view, rest, &mut notes);
    JudgedView {
        missing,
        rest,
        notes,
    }
}
