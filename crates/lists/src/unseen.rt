// The printed unseen marks: each node that has one, ascending, with the mark's index.
ghost use Rattle.std.specs.Prelude.{◌≡◌};
ghost use Rattle.lists.specs.Unseen.{mark_in, unseen_answer};

use crate::pick::nth_held;
use storage::stored::Stored;
use storage_bytes::layout::{NODES, Nodes};
use storage_rows::nodes::unseen_of;
use units::{LogIndex, NODE_COUNT, NodeId};

#[derive(Clone, Copy)]
pub struct Unseen {
    pub node: NodeId,
    pub index: LogIndex,
}

// The n-th mark of the table of nodes, counted from 0.
fn mark_in(nodes: &Nodes, n: usize) -> Option<Unseen>
    ensures { result ≡ mark_in nodes.now n }
{
    nth_held(NODE_COUNT, n, |k| {
        let node = NodeId(k as u8);
        let index = unseen_of(nodes, node)?;
        Some(Unseen { node, index })
    })
}

// The n-th printed mark, counted from 0.
#[tactic(auto, using(storage::proofs::WellFormed::formed, crate::proofs::IndexWhole::unseen_lent))]
pub fn unseen_at(history: Stored<'_>, n: usize) -> Option<Unseen>
    ensures { result ≡ unseen_answer history.entry.bytes.now n }
{
    let bytes = history.bytes;
    mark_in(NODES.array(bytes), n)
}
