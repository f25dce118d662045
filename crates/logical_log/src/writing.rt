// An accepted view is written: its prefixes, the node's row, the findings.
ghost use Rattle.std.specs.Prelude.{◌≡◌, ◌<◌};
ghost use Rattle.logical_log.specs.Writing.{Storing, StoredAs, view_replaced, rest_made, rest_written};
ghost use Rattle.record_entries.specs.BitLayout.{bits_of};
ghost use Rattle.model.specs.Sizes.{node_count};

use crate::judging::FrontCursor;
use log_prefix::prefix::{Extended, extend};
use log_violation::violation::Notes;
use record_entries::view::ViewBytes;
use record_entries::walk::{Entries, last_index};
use storage::rows::set;
use storage_bytes::layout::History;
use storage_rows::nodes::{Node, node_of};
use units::{LogIndex, LogPrefixWitness, NodeId};

// A front as it is stored, and how many of its prefixes were made for it.
#[derive(Clone, Copy)]
struct StoredFront {
    front: LogPrefixWitness,
    made: usize,
}

// Each prefix of the front, from a place on, is stored once.
fn store(history: &mut History, count: usize, view: ViewBytes<'_>, rest: FrontCursor) -> StoredFront
    requires { Storing history.old count (bits_of view.bytes.now view.marked) rest }
    ensures { StoredAs history.old count (bits_of view.entry.bytes.now view.entry.marked) rest result.front.0 result.made history.new }
{
    let entries = Entries {
        view,
        next: rest.at,
        left: rest.left,
    };
    let mut front = rest.prefix;
    let mut made = 0;
    for e in entries {
        match extend(history, count + made, front, e) {
            Extended::Found(p) => front = p,
            Extended::Made(p) => {
                front = p;
                made += 1;
            }
            Extended::NotNext => break,
        }
    }
    StoredFront { front, made }
}

// The node's front and last index are replaced; its unseen mark stays.
#[tactic(auto, unfolding(crate::specs::Writing::view_replaced))]
fn replace_view(history: &mut History, node: NodeId, front: LogPrefixWitness, last: LogIndex)
    requires { node.0 < node_count }
    ensures { history.new ≡ view_replaced history.old node.0 front.0 last.0 }
{
    let x = node_of(history, node);
    set(history, usize::from(node.0), Node { front, last, ..x });
}

// An accepted view is written: its prefixes from a place on, the node's row, the findings; how many prefixes were made. Its bytes and
// its node stand apart: a `View` would ask for more, that its entries can be walked from the first.
pub fn write_view(
    history: &mut History,
    count: usize,
    view: ViewBytes<'_>,
    rest: FrontCursor,
    node: NodeId,
    notes: &Notes,
) -> usize
    requires { Storing history.old count (bits_of view.bytes.now view.marked) rest × (node.0 < node_count) }
    ensures { (result ≡ rest_made history.old count (bits_of view.entry.bytes.now view.entry.marked) rest) × (history.new ≡ rest_written history.old count (bits_of view.entry.bytes.now view.entry.marked) rest node.0 notes.now.rows notes.now.held) }
{
    let stored = store(history, count, view, rest);
    let before = LogIndex(rest.index.0 - 1);
    let last = last_index(view, rest.at, rest.left, before);
    replace_view(history, node, stored.front, last);
    notes.keep(history);
    stored.made
}
