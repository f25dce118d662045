// The committed prefix: its length and its owner.
ghost use Rattle.std.specs.Prelude.{◌≡◌};
ghost use Rattle.storage.specs.Values.{committed_end};
ghost use Rattle.lists.specs.Committed.{owner_in, committed_answer};

use commit::committed::committed_prefix as kept_prefix;
use storage::head::owner;
use storage::stored::Stored;
use storage_bytes::layout::PREFIXES;
use storage_rows::prefixes::through;
use units::{LogIndex, NodeId};

// A committed prefix that is not empty.
#[derive(Clone, Copy)]
pub struct Committed {
    pub length: LogIndex,
    pub owner: NodeId,
}

pub fn committed_prefix(history: Stored<'_>) -> Option<Committed>
    ensures { result ≡ committed_answer history.entry.bytes.now }
{
    let bytes = history.bytes;
    let Some(prefix) = kept_prefix(bytes) else {
        return None;
    };
    Some(Committed {
        length: through(PREFIXES.array(bytes), prefix),
        owner: owner(bytes),
    })
}

// The two as they are printed and as callers in C read them: both 0 where there is none.
#[tactic(auto, unfolding(crate::specs::Committed::committed_answer, crate::specs::Committed::owner_in))]
pub fn printed_committed(history: Stored<'_>) -> Committed
    ensures length { result.length.0 ≡ committed_end history.entry.bytes.now }
    ensures owner { result.owner.0 ≡ owner_in history.entry.bytes.now }
{
    let none = Committed {
        length: LogIndex::ZERO,
        owner: NodeId(0),
    };
    committed_prefix(history).unwrap_or(none)
}
