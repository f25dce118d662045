// The storage rules of the table of nodes.
ghost use Rattle.std.specs.Prelude.{◌≡◌};
ghost use Rattle.storage_bytes.specs.Lists.{every};
ghost use Rattle.storage.specs.Tables.{node_rows};
ghost use Rattle.storage.specs.Rules.{node_right};
ghost use Rattle.storage_rows.specs.Rows.{node_value};

use storage::rows::all_rows;
use storage_bytes::layout::Nodes;
use storage_rows::nodes::Node;
use units::{LogIndex, NODE_COUNT};

// The storage rules of one row, where n prefixes are stored.
#[tactic(auto, unfolding(storage::specs::Rules::node_right))]
fn node_right(n: usize, x: Node) -> bool
    ensures { result ≡ node_right n (node_value x) }
{
    if n < x.front.0 {
        return false;
    }
    if LogIndex::LAST < x.last {
        return false;
    }
    // None is less than any mark.
    x.unseen <= Some(LogIndex::LAST)
}

// The storage rules of every row.
pub fn nodes_right(nodes: &Nodes, n: usize) -> bool
    ensures { result ≡ every (node_right n) (node_rows nodes.now) }
{
    all_rows(nodes, NODE_COUNT, |x: Node| node_right(n, x))
}
