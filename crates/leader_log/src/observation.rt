// A leader's view observed (`observe_cluster`, of the node that the record names as leader).
ghost use Rattle.std.specs.Prelude.{◌≡◌, ◌≤◌, ◌<◌, true};
ghost use Rattle.storage.specs.Rules.{well_formed};
ghost use Rattle.storage.specs.Tables.{leader_log_row};
ghost use Rattle.storage.specs.Head.{prefixes_held, leader_logs_held};
ghost use Rattle.storage_rows.specs.Rows.{leader_log_value};
ghost use Rattle.model.specs.Sizes.{node_count, leader_log_limit};
ghost use Rattle.leader_log.specs.Observation.{present_in, place_from, growth_of, first_step, rewritten_step, next_step, leader_step};
ghost use Rattle.answers.specs.Step.{Gives};

use crate::comparison::log_extends;
use answers::answer::{Accepted, Refusal};
use log_violation::violation::note_in;
use record_reading::head::Leader;
use storage::head::leader_log_count;
use storage::rows::{StoredRow, set};
use storage::stored::Stored;
use storage_bytes::layout::{History, LEADER_LOGS, LeaderLogs};
use storage_rows::findings::{Found, LG_01};
use storage_rows::leader_logs::{LeaderLog, append, is_pair};
use storage_rows::nodes::node_of;
use units::{LEADER_LOG_LIMIT, LogIndex};

// The flag of agreement with a higher last index: a number and no enum, as callers in C read it.
const GROWTH: usize = 8;

// The node's present view, as it is kept for the node in the term. A node without a view has the empty one.
fn present(history: &History, leader: Leader) -> LeaderLog
    requires { leader.node.0 < node_count }
    ensures { leader_log_value result ≡ present_in history.now leader.node.0 leader.term.0 }
{
    let x = node_of(history, leader.node);
    LeaderLog {
        node: leader.node,
        term: leader.term,
        front: x.front,
        last: x.last,
    }
}

// The place of the view kept for the leader in the term, of those held.
fn place_of(logs: &LeaderLogs, held: usize, leader: Leader) -> Option<usize>
    requires { held ≤ leader_log_limit }
    ensures { result ≡ place_from (leader_log_row logs.now) leader.node.0 leader.term.0 0 held }
{
    for k in 0..held {
        if is_pair(logs, k, leader.node, leader.term) {
            return Some(k);
        }
    }
    None
}

// The flag of growth where the current view, which agrees with the previous one, is longer.
fn growth(previous: LeaderLog, current: LeaderLog) -> usize
    ensures { result ≡ growth_of (leader_log_value previous) (leader_log_value current) }
{
    if previous.last < current.last {
        GROWTH
    } else {
        0
    }
}

// A pair's first record only keeps.
#[tactic(auto, unfolding(crate::specs::Observation::first_step))]
fn keep_first(history: &mut History, current: LeaderLog) -> Result<Accepted, Refusal>
    ensures { Gives (first_step history.old (leader_log_value current)) result history.new }
{
    if LEADER_LOG_LIMIT <= leader_log_count(history) {
        return Err(Refusal::LeaderLogsFull);
    }
    append(history, current);
    Ok(Accepted::with(0))
}

// A rewriting adds LG-01. The finding is noted in place: it is the only one.
#[tactic(auto, using(storage::proofs::WellFormed::findings_fit))]
fn note_rewriting(
    history: &mut History,
    place: usize,
    current: LeaderLog,
) -> Result<Accepted, Refusal>
    requires { (well_formed history.old ≡ true) × (place < leader_log_limit) }
    ensures { Gives (rewritten_step history.old place (leader_log_value current)) result history.new }
{
    let lg01 = Found {
        name: LG_01,
        node: current.node,
        index: LogIndex::ZERO,
        term: current.term,
    };
    note_in(history, lg01)?;
    set(history, place, current);
    Ok(Accepted::with(0))
}

// The current view is held against the one kept in the place, and kept there in every case but one: where there is no room for LG-01.
fn hold_against(
    history: &mut History,
    place: usize,
    current: LeaderLog,
) -> Result<Accepted, Refusal>
    requires { (well_formed history.old ≡ true) × (place < leader_logs_held history.old) × (current.front.0 ≤ prefixes_held history.old) }
    ensures { Gives (next_step history.old place (leader_log_value current)) result history.new }
{
    let previous = LeaderLog::at(LEADER_LOGS.of(history), place);
    let Some(extends) = log_extends(Stored { bytes: &*history }, previous, current) else {
        set(history, place, current); // a gap leaves it open
        return Ok(Accepted::with(0));
    };
    if !extends {
        return note_rewriting(history, place, current);
    }
    set(history, place, current);
    Ok(Accepted::with(growth(previous, current)))
}

// A record of a leader in a term: 14, then 7, else its present view is kept for both. The flag of growth: 8 where the view extends the
// one kept before.
pub fn observe_leader(history: &mut History, leader: Leader) -> Result<Accepted, Refusal>
    requires { (well_formed history.old ≡ true) × (leader.node.0 < node_count) }
    ensures { Gives (leader_step history.old leader.node.0 leader.term.0) result history.new }
{
    let current = present(history, leader);
    let held = leader_log_count(history);
    let Some(place) = place_of(LEADER_LOGS.array(history), held, leader) else {
        return keep_first(history, current);
    };
    hold_against(history, place, current)
}
