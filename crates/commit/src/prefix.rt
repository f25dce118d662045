// Committed prefixes (`observe_committed_prefixes`, `insert_committed_prefix`): one is kept, and each later one must agree with
// it through the shorter end. A prefix that the node's front does not reach is marked unseen, never assumed.
ghost use Rattle.std.specs.Prelude.{◌≡◌, true, ◌≤◌, ◌<◌};
ghost use Rattle.storage.specs.Rules.{well_formed};
ghost use Rattle.storage.specs.Head.{prefixes_held};
ghost use Rattle.model.specs.Sizes.{node_count};
ghost use Rattle.commit.specs.Prefix.{flags_of, note_step, insert_step, commit_step};
ghost use Rattle.answers.specs.Step.{Gives};

use crate::committed::{agree_through, committed_prefix, keep, set_unseen};
use answers::answer::{Accepted, Refusal};
use log_prefix::lookup::front_through;
use log_violation::violation::note_in;
use storage::head::{owner, set_committed};
use storage::stored::Stored;
use storage_bytes::layout::{History, PREFIXES};
use storage_rows::findings::{Found, LG_04};
use storage_rows::prefixes::through;
use units::{LogIndex, LogPrefixWitness, NodeId, Term};

// The flags are numbers and no enum: their sum is the record's value, which callers in C read.
// The flag of agreement with the committed prefix.
const AGREEMENT: usize = 1;

// The flag of agreement where its owner is another node.
const OTHER_OWNER: usize = 2;

// The sum of the flags of agreement.
fn flags(owner: NodeId, node: NodeId) -> usize
    ensures { result ≡ flags_of owner.0 node.0 }
{
    if owner == node {
        AGREEMENT
    } else {
        AGREEMENT + OTHER_OWNER
    }
}

// A difference through the shorter end adds LG-04 and changes nothing else. The finding is noted in place: it is the only one.
#[tactic(auto, using(storage::proofs::WellFormed::findings_fit))]
fn note_difference(history: &mut History, node: NodeId, end: LogIndex) -> Result<Accepted, Refusal>
    requires { (well_formed history.old ≡ true) × (node.0 < node_count) }
    ensures { Gives (note_step history.old node.0 end.0) result history.new }
{
    let lg04 = Found {
        name: LG_04,
        node,
        index: end,
        term: Term::ZERO,
    };
    note_in(history, lg04)?;
    set_unseen(history, node, None);
    Ok(Accepted::with(0))
}

// The prefix seen is compared with the committed one; a longer one replaces it.
#[tactic(auto, using(storage::proofs::WellFormed::prefixes_fit))]
fn insert_committed_prefix(
    history: &mut History,
    node: NodeId,
    committed: LogPrefixWitness,
    seen: LogPrefixWitness,
) -> Result<Accepted, Refusal>
    requires { (well_formed history.old ≡ true) × (node.0 < node_count) × (committed.0 ≤ prefixes_held history.old) × (seen.0 ≤ prefixes_held history.old) }
    ensures { Gives (insert_step history.old node.0 committed.0 seen.0) result history.new }
{
    let prefixes = PREFIXES.array(history);
    let committed_end = through(prefixes, committed);
    let seen_end = through(prefixes, seen);
    let end = committed_end.min(seen_end);
    if !agree_through(Stored { bytes: &*history }, committed, seen, end) {
        return note_difference(history, node, end);
    }
    let former = owner(history);
    let sum = flags(former, node);
    set_unseen(history, node, None);
    if committed_end < seen_end {
        set_committed(history, seen, node);
    }
    Ok(Accepted::with(sum))
}

// A node's commit index: the committed prefix that it shows is unseen, kept, or compared. The sum of its flags: 1 for agreement
// with the committed prefix, 2 where its owner is another node.
pub fn observe_committed_prefixes(
    history: &mut History,
    node: NodeId,
    index: LogIndex,
) -> Result<Accepted, Refusal>
    requires { (well_formed history.old ≡ true) × (node.0 < node_count) }
    ensures { Gives (commit_step history.old node.0 index.0) result history.new }
{
    let Some(seen) = front_through(Stored { bytes: &*history }, node, index) else {
        set_unseen(history, node, Some(index));
        return Ok(Accepted::with(0));
    };
    if seen == LogPrefixWitness::EMPTY {
        set_unseen(history, node, None); // index zero does nothing more
        return Ok(Accepted::with(0));
    }
    let Some(committed) = committed_prefix(history) else {
        keep(history, node, seen);
        return Ok(Accepted::with(0));
    };
    insert_committed_prefix(history, node, committed, seen)
}
