// The committed prefix: looked up, held against another one, and replaced; and a node's unseen mark.
ghost use Rattle.std.specs.Prelude.{◌≡◌, ◌≤◌, ◌<◌, length};
ghost use Rattle.storage_rows.specs.Rows.{mark_value};
ghost use Rattle.log_prefix.specs.Prefix.{stored_of};
ghost use Rattle.commit.specs.Committed.{unseen_set, agree_in, keep_bytes};
ghost use Rattle.storage.specs.Head.{prefixes_held, committed_number};
ghost use Rattle.model.specs.Sizes.{node_count};
ghost use Rattle.storage_bytes.specs.Layout.{head_length};

use log_prefix::comparison::same_prefix;
use log_prefix::lookup::slice_through;
use storage::head::{committed, set_committed};
use storage::rows::set;
use storage::stored::Stored;
use storage_bytes::layout::{History, PREFIXES};
use storage_rows::nodes::{Node, node_of};
use units::{LogIndex, LogPrefixWitness, NodeId};

// The committed prefix, where one is kept. The head's nine bytes are enough: the whole history's type would ask for
// all of it.
#[tactic(auto, using(model::proofs::Tests::unless_zero), unfolding(log_prefix::specs::Prefix::stored_of))]
pub fn committed_prefix(history: &[u8]) -> Option<LogPrefixWitness>
    requires { head_length ≤ length history.now }
    ensures { result ≡ stored_of (committed_number history.now) }
{
    let p = committed(history);
    (p != LogPrefixWitness::EMPTY).then_some(p)
}

// The node's unseen mark is set, or cleared; its view stays.
#[tactic(auto, unfolding(crate::specs::Committed::unseen_set))]
pub fn set_unseen(history: &mut History, node: NodeId, mark: Option<LogIndex>)
    requires { node.0 < node_count }
    ensures { history.new ≡ unseen_set history.old node.0 (mark_value mark) }
{
    let x = node_of(history, node);
    set(history, usize::from(node.0), Node { unseen: mark, ..x });
}

// Both prefixes reach the index, and are the same through it.
pub fn agree_through(
    history: Stored<'_>,
    a: LogPrefixWitness,
    b: LogPrefixWitness,
    index: LogIndex,
) -> bool
    requires { (a.0 ≤ prefixes_held history.bytes.now) × (b.0 ≤ prefixes_held history.bytes.now) }
    ensures { result ≡ agree_in history.entry.bytes.now a.0 b.0 index.0 }
{
    let bytes = history.bytes;
    let prefixes = PREFIXES.array(bytes);
    let Some(p) = slice_through(prefixes, a, index) else {
        return false;
    };
    let Some(q) = slice_through(prefixes, b, index) else {
        return false;
    };
    same_prefix(prefixes, p, q)
}

// The prefix becomes the committed one, and the node its owner; the node's unseen mark is cleared.
#[tactic(auto, unfolding(crate::specs::Committed::keep_bytes))]
pub fn keep(history: &mut History, node: NodeId, p: LogPrefixWitness)
    requires { node.0 < node_count }
    ensures { history.new ≡ keep_bytes history.old node.0 p.0 }
{
    set_unseen(history, node, None);
    set_committed(history, p, node);
}
