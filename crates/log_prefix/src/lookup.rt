// Stored prefixes are found by what they extend or by index and term, and cut at an index (types/prefix.rs); so is a node's front.
ghost use Rattle.std.specs.Prelude.{◌≡◌, ℕ, ◌≤◌, ◌<◌};
ghost use Rattle.storage.specs.Tables.{prefix_row};
ghost use Rattle.storage.specs.Rules.{same_row};
ghost use Rattle.log_prefix.specs.Table.{Table, entry_value};
ghost use Rattle.log_prefix.specs.Prefix.{row_of, find, is_of, first, stored_of, slice_of, front_through};
ghost use Rattle.model.specs.Sizes.{node_count, content_limit, prefix_limit};

use crate::table::Prefixes;
use record_entries::walk::ShownEntry;
use storage::stored::Stored;
use storage_bytes::layout::{PREFIXES, PrefixTable};
use storage_rows::nodes::node_of;
use storage_rows::prefixes::{content_at, index_at, mark_at, parent_at, size_at, term_at, through};
use units::{LogIndex, LogPrefixWitness, NodeId, Term};

// Row k extends the prefix by the entry (`matches_extension`). Field by field, as rows are compared where the rules are tested.
fn matches_extension(prefixes: &PrefixTable, k: usize, p: LogPrefixWitness, e: &ShownEntry) -> bool
    requires { (k < prefix_limit) × (e.now.length ≤ content_limit) }
    ensures { result ≡ same_row (prefix_row prefixes.now k) (row_of p.0 0 (entry_value e.now)) }
{
    if parent_at(prefixes, k) != p {
        return false;
    }
    if term_at(prefixes, k) != e.term {
        return false;
    }
    if mark_at(prefixes, k) != e.mark() {
        return false;
    }
    if size_at(prefixes, k) != e.length {
        return false;
    }
    content_at(prefixes, k) == e.content()
}

// Row k is of the index and term.
fn is_of(prefixes: &PrefixTable, k: usize, index: LogIndex, term: Term) -> bool
    requires { k < prefix_limit }
    ensures { result ≡ is_of index.0 term.0 (prefix_row prefixes.now k) }
{
    index_at(prefixes, k) == index && term_at(prefixes, k) == term
}

impl<'a> Prefixes<'a> {
    // The stored prefix that extends the given one by the entry. It comes after that one. In line, so that the entry is not copied for it.
    #[tactic(auto, unfolding(crate::specs::Prefix::find))]
    #[inline(always)]
    pub fn find_extension(self, p: LogPrefixWitness, e: ShownEntry) -> Option<LogPrefixWitness>
        requires { (p.0 ≤ self.count) × (e.length ≤ content_limit) }
        ensures { result ≡ stored_of (find (prefix_row self.entry.rows.now) self.entry.count (row_of p.0 0 (entry_value e))) }
    {
        for k in p.0..self.count {
            if matches_extension(self.rows, k, p, &e) {
                return Some(LogPrefixWitness(k + 1));
            }
        }
        None
    }

    // The first stored prefix of the index and term. A prefix's number is at least its index.
    #[tactic(auto, unfolding(crate::specs::Prefix::first))]
    pub fn first_of(self, index: LogIndex, term: Term) -> Option<LogPrefixWitness>
        requires { 1 ≤ index.0 }
        ensures { result ≡ stored_of (first (prefix_row self.entry.rows.now) self.entry.count index.0 term.0) }
    {
        for k in index.0 - 1..self.count {
            if is_of(self.rows, k, index, term) {
                return Some(LogPrefixWitness(k + 1));
            }
        }
        None
    }
}

// The prefix through the index: nothing beyond its end, the empty prefix at zero. Each prefix goes through one index more than the
// one it extends, so its end is read once. That the rows up to some number keep the storage rules, and the prefix is among them, only its
// proof uses: `Prefixes` would have each caller read how many there are.
pub fn slice_through(
    prefixes: &PrefixTable,
    p: LogPrefixWitness,
    index: LogIndex,
) -> Option<LogPrefixWitness>
    requires { (n : ℕ) × Table prefixes.now n × (p.0 ≤ n) }
    ensures { result ≡ slice_of (prefix_row prefixes.now) p.0 index.0 }
{
    let end = through(prefixes, p);
    if end < index {
        return None;
    }
    let mut q = p;
    for k in index.0..end.0 {
        q = parent_at(prefixes, q.0 - 1);
    }
    Some(q)
}

// The node's front through the index; a node without a view has the empty front.
pub fn front_through(history: Stored<'_>, node: NodeId, index: LogIndex) -> Option<LogPrefixWitness>
    requires { node.0 < node_count }
    ensures { result ≡ front_through history.entry.bytes.now node.0 index.0 }
{
    let bytes = history.bytes;
    let x = node_of(bytes, node);
    slice_through(PREFIXES.array(bytes), x.front, index)
}
