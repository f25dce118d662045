// Any bytes, to any history: 12 first, then reading, then the kind's own refusals, then acceptance with value and node.
ghost use Rattle.std.specs.Prelude.{◌≡◌, true, Ok};
ghost use Rattle.record_reading.specs.Heads.{Told};
ghost use Rattle.storage.specs.Rules.{well_formed};
ghost use Rattle.submission.specs.Replies.{step_to, submit_step};
ghost use Rattle.answers.specs.Step.{Gives};

use answers::answer::{Accepted, Refusal};
use commit::prefix::observe_committed_prefixes;
use commit_terms::terms::record_commit_terms;
use election::certificate::record_election;
use invariants::commit_safety::check_rows;
use leader_completeness::leader_completeness::record_leader_completeness;
use leader_log::observation::observe_leader;
use logical_log::observation::observe_prefixes;
use record_entries::view::{View, ViewBytes};
use record_reading::head::{Head, read};
use storage_bytes::layout::History;
use storage_rules::whole::well_formed;
use units::PREFIX_LIMIT;

// The record of that head, to a history that keeps the storage rules.
fn dispatch(history: &mut History, s: &[u8], head: Head) -> Result<Accepted, Refusal>
    requires { (well_formed history.old ≡ true) × Told s.now (Ok head) }
    ensures { Gives (step_to history.old s.now (Ok head)) result history.new }
{
    match head {
        Head::View { node, count } => {
            let view = View {
                shown: ViewBytes::of(s),
                entries: count,
                node,
            };
            observe_prefixes(history, view, PREFIX_LIMIT)
        }
        Head::Commit { node, index } => observe_committed_prefixes(history, node, index),
        Head::Terms(t) => record_commit_terms(history, t),
        Head::Election(e) => record_election(history, e),
        Head::Check => record_leader_completeness(history),
        Head::Rows { count } => check_rows(s, count),
        Head::Leader(l) => observe_leader(history, l),
    }
}

// One record: a refused one leaves every byte. The length is tested to have the bytes as an array, and again in `well_formed`, which is
// lent bytes of any length.
pub fn submit(history: &mut [u8], s: &[u8]) -> Result<Accepted, Refusal>
    ensures { Gives (submit_step history.old s.now) result history.new }
{
    let Some(bytes) = history.as_mut_array() else {
        return Err(Refusal::StorageBroken);
    };
    if !well_formed(bytes) {
        return Err(Refusal::StorageBroken);
    }
    let head = read(s)?;
    dispatch(bytes, s, head)
}
