// Every ordered pair of the appendix's views, judged by the history and by the Raft paper's Log Matching: if two logs contain an
// entry with the same index and term, then the logs are identical in all entries up through that index. The history is handed the
// first view from one node and the second from another; the rule is asked of the two views' entries alone, and says which LG-03
// there are to be.
#![tactic(auto)]

ghost use Rattle.std.specs.Prelude.{◌<◌, ◌≤◌};
ghost use Rattle.appendix_views.specs.Views.{view_count};

use appendix_views::record::put_view;
use appendix_views::views::{VIEWS, View, nth};
use history::exports::{gamiwhoru_finding, gamiwhoru_fresh, gamiwhoru_submit};
use sheet_lines::decimal::Sheet;
use std::io;
use std::io::Write;
use storage_bytes::layout::HISTORY_LENGTH;

// The nodes that show the first view and the second.
const FIRST: u8 = 0;

const SECOND: u8 = 1;

// How many pairs there are, and how many pairs of index and term one of them may have: two terms, three indexes.
const PAIRS: usize = VIEWS * VIEWS;

const PLACES: usize = 6;

// Whether the entries 1 to `index` are the same in both.
fn identical(a: View, b: View, index: usize) -> bool
    requires { (index ≤ a.count) × (index ≤ b.count) }
{
    for i in 1..=index {
        if a.entry(i) != b.entry(i) {
            return false;
        }
    }
    true
}

// Whether both have an entry with this index and term, and are not identical through it.
fn broken(a: View, b: View, index: usize, term: u32) -> bool {
    if a.count < index || b.count < index {
        return false;
    }
    let (one, other) = (a.entry(index), b.entry(index));
    one.term == term && other.term == term && !identical(a, b, index)
}

// What the history holds is told by its n-th finding: an LG-03 of the second node with this index and term.
fn tells(history: &[u8], n: usize, index: usize, term: u32) -> bool {
    let f = gamiwhoru_finding(history, n);
    f.state == 0 && f.name == 3 && f.node == SECOND && f.index == index && f.term == term
}

// What is said of a pair: whether it matches by the rule, and whether the history says otherwise.
#[derive(Clone, Copy)]
struct Said {
    matches: bool,
    differs: bool,
}

// The findings are held against the rule one after the other: they are ordered by term, then index.
fn judge(history: &[u8], a: View, b: View) -> Said {
    let mut n = 0;
    let mut differs = false;
    for place in 0..PLACES {
        let index = place % 3 + 1;
        let term = if place < 3 { 1 } else { 2 };
        if broken(a, b, index, term) {
            differs = differs || !tells(history, n, index, term);
            n += 1;
        }
    }
    let end = gamiwhoru_finding(history, n);
    Said {
        matches: n == 0,
        differs: differs || end.state != 1,
    }
}

// The n-th view is handed in: whether it was accepted.
fn submit(history: &mut [u8], node: u8, n: usize) -> bool
    requires { (node < 2) × (n < view_count) }
{
    let mut bytes = [0u8; 24];
    let mut record = Sheet {
        out: &mut bytes,
        end: 0,
    };
    put_view(&mut record, node, n);
    let end = record.end;
    let reply = gamiwhoru_submit(history, &record.out[..end]);
    reply.refusal == 0
}

fn main(rt: HostRuntime) -> io::Result<()> {
    let mut history = [0u8; HISTORY_LENGTH];
    let mut judged: usize = 0;
    let mut matching = 0;
    let mut differing = 0;
    for pair in 0..PAIRS {
        let (i, j) = (pair / VIEWS, pair % VIEWS);
        let fresh = gamiwhoru_fresh(&mut history) == 0;
        let first = submit(&mut history, FIRST, i);
        let second = submit(&mut history, SECOND, j);
        let said = judge(&history, nth(i), nth(j));
        judged += 1;
        matching += usize::from(said.matches);
        differing += usize::from(said.differs || !(fresh && first && second));
    }
    writeln!(
        &mut rt.stdout(),
        "{judged} judged, {matching} match, {differing} differ"
    )
}
