// The table of nodes: of each of the 64 its front, the last index of its view and its unseen mark, stored as 0 where there is none.
ghost use Rattle.std.specs.Prelude.{◌≡◌, ◌+◌, ◌*◌, ◌<◌, length, refl};
ghost use Rattle.std.proofs.Common.{lit≤};
ghost use Rattle.storage.specs.Tables.{NodeRow, nodes_part, row_of_node};
ghost use Rattle.storage_rows.specs.Rows.{node_value};
ghost use Rattle.storage_rows.specs.TermSearch.{found_index};
ghost use Rattle.storage_bytes.specs.declared.layout.TheConstants.{NODES};
ghost use Rattle.storage.proofs.RowLaws.{node_length};
ghost use Rattle.storage_bytes.specs.Layout.{nodes_length, node_width};
ghost use Rattle.storage.specs.Writes.{node_bytes};
ghost use Rattle.model.specs.Sizes.{node_count};

use storage::rows::{Row, StoredRow};
use storage_bytes::layout::{History, NODE_LAST, NODE_UNSEEN, NODE_WIDTH, NODES, Nodes, Region};
use storage_bytes::words::Field;
use units::{LogIndex, LogPrefixWitness, NodeId};

#[derive(Clone, Copy, PartialEq, Eq)]
pub struct Node {
    pub front: LogPrefixWitness,
    pub last: LogIndex,
    pub unseen: Option<LogIndex>,
}

impl Row for Node {
    ghost TABLE = { NODES };

    ghost width = { node_width };

    ghost count = { node_count };

    ghost bytes = { λ x. node_bytes (node_value x) };

    ghost whole = { λ x. Unit {0} };

    ghost inside = { lit≤ tt };

    ghost filled = { refl };

    ghost wide = { λ x _. node_length (node_value x) };

    const TABLE: Region = NODES;

    #[tactic(auto, using(storage_bytes::proofs::WordLaws::put_join, storage_bytes::proofs::WordLaws::word_bytes_length), unfolding(storage::specs::Writes::node_bytes))]
    fn put(self, nodes: &mut [u8], k: usize) {
        let o = k * NODE_WIDTH;
        self.front.write(nodes, o);
        self.last.write(nodes, o + NODE_LAST);
        self.unseen
            .unwrap_or(LogIndex::ZERO)
            .write(nodes, o + NODE_UNSEEN);
    }
}

impl StoredRow for Node {
    ghost Value = { NodeRow };

    ghost value = { node_value };

    ghost stored = { row_of_node };

    #[tactic(auto, using(crate::proofs::TermSearchLaws::index_back))]
    fn at(nodes: &[u8], k: usize) -> Node {
        let o = k * NODE_WIDTH;
        Node {
            front: LogPrefixWitness::read(nodes, o),
            last: LogIndex::read(nodes, o + NODE_LAST),
            unseen: stored_mark(LogIndex::read(nodes, o + NODE_UNSEEN)),
        }
    }
}

// A node's row in the whole history.
pub fn node_of(history: &History, node: NodeId) -> Node
    requires { node.0 < node_count }
    ensures { node_value result ≡ row_of_node (nodes_part history.now) node.0 }
{
    Node::at(NODES.of(history), usize::from(node.0))
}

// The unseen mark of a node alone.
pub fn unseen_of(nodes: &Nodes, node: NodeId) -> Option<LogIndex>
    requires { node.0 < node_count }
    ensures { result ≡ found_index (row_of_node nodes.now node.0).unseen }
{
    stored_mark(LogIndex::read(nodes, usize::from(node.0) * NODE_WIDTH + NODE_UNSEEN))
}

// A mark as it is stored: zero is none.
#[tactic(auto, using(model::proofs::Tests::unless_zero), unfolding(crate::specs::TermSearch::found_index))]
fn stored_mark(mark: LogIndex) -> Option<LogIndex>
    ensures { result ≡ found_index mark.0 }
{
    (mark != LogIndex::ZERO).then_some(mark)
}
