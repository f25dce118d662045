// Commit-index and configuration bounds, row by row: the first failing row of the first failing rule. Each row is read once.
// An earlier rule counts before an earlier row, so the walk goes on past a failing row, to rows that fail an earlier rule.
ghost use Rattle.std.specs.Prelude.{◌≡◌, ◌∷◌, ltb};
ghost use Rattle.model.specs.Rows as model;
ghost use Rattle.record_entries.specs.BitLayout as places;
ghost use Rattle.invariants.specs.Rules.{row_of, configured, number, rank, least, node_in, first_rule, least_from, verdict_for, accepted_for, rows_answer};

use answers::answer::{Accepted, Refusal};
use record_entries::walk::{Configuration, FIRST_ROW, Row, row_at};
use units::NodeId;

// The rules, in order.
#[derive(Clone, Copy, PartialEq, Eq, PartialOrd, Ord)]
pub enum Rule {
    // 1, the commit index is not below its floor (`check_commit_index_monotonicity`).
    CommitMonotonicity,
    // 2 (`check_committed_configuration_index_monotonicity`).
    ConfigurationMonotonicity,
    // 3 (`check_committed_configuration_identity`).
    ConfigurationIdentity,
    // 4, the commit index is not above the last index (`check_commit_index_within_local_log_bounds`).
    LogBounds,
}

// Document 01's number of a rule. Written out, so that the order of the variants means nothing.
impl From<Rule> for u8 {
    ghost from_gives = { λ r result. result ≡ number r };

    fn from(r: Rule) -> u8 {
        match r {
            Rule::CommitMonotonicity => 1,
            Rule::ConfigurationMonotonicity => 2,
            Rule::ConfigurationIdentity => 3,
            Rule::LogBounds => 4,
        }
    }
}

// A rule that fails, and the first node that fails it.
#[derive(Clone, Copy, PartialEq, Eq)]
pub struct Failure {
    pub rule: Rule,
    pub node: NodeId,
}

// Rule 2 fails: there was a committed configuration, and there is none now or one of a lower index.
fn configuration_regressed(floor: Option<Configuration>, actual: Option<Configuration>) -> bool
    ensures { result ≡ model.rule2 (configured floor actual) }
{
    let Some(floor) = floor else {
        return false;
    };
    let Some(actual) = actual else {
        return true;
    };
    actual.index < floor.index
}

// Rule 3 fails: the committed configuration has another identity at the same index.
fn configuration_changed(floor: Option<Configuration>, actual: Option<Configuration>) -> bool
    ensures { result ≡ model.rule3 (configured floor actual) }
{
    let (Some(floor), Some(actual)) = (floor, actual) else {
        return false;
    };
    floor.index == actual.index && floor.identity != actual.identity
}

// The first rule that the row fails.
#[tactic(auto, unfolding(crate::specs::Rules::first_rule))]
fn first_rule(r: Row) -> Option<Rule>
    ensures { rank result ≡ first_rule (row_of r) }
{
    let floor = r.floor_configuration;
    let actual = r.actual_configuration;
    if r.commit < r.floor {
        Some(Rule::CommitMonotonicity)
    } else if configuration_regressed(floor, actual) {
        Some(Rule::ConfigurationMonotonicity)
    } else if configuration_changed(floor, actual) {
        Some(Rule::ConfigurationIdentity)
    } else if r.last < r.commit {
        Some(Rule::LogBounds)
    } else {
        None
    }
}

// Whether the rule comes before the one that failed so far. A failure without one yet is after every rule: `Option`'s own order has it
// before.
fn comes_before(rule: Rule, failed: Option<Failure>) -> bool
    ensures { result ≡ ltb (number rule) (least failed) }
{
    match failed {
        Some(f) => rule < f.rule,
        None => true,
    }
}

// The first failure, with one row more: of the same rule the earlier row stays, whichever its node, so it is no minimum by fields.
#[tactic(auto, unfolding(crate::specs::Rules::least_from))]
fn with_row(failed: Option<Failure>, row: Row) -> Option<Failure>
    ensures { (rs : _) → least_from (least failed) (node_in failed) (row_of row ∷ rs) ≡ least_from (least result) (node_in result) rs }
{
    match first_rule(row) {
        Some(rule) if comes_before(rule, failed) => Some(Failure {
            rule,
            node: row.node,
        }),
        _ => failed,
    }
}

// The first failing row of the first failing rule, over the rows of a readable record. No rule comes before the first, so
// a row that fails it ends the walk. It is the one walk over rows: an iterator of its own would serve nothing else.
pub fn check_commit_safety(s: &[u8], count: usize) -> Option<Failure>
    requires { places.RowWalk s.now places.first_row count }
    ensures { result ≡ verdict_for (model.verdict (places.rows_at s.now places.first_row count)) }
{
    let mut at = FIRST_ROW;
    let mut failed = None;
    for _ in 0..count {
        if !comes_before(Rule::CommitMonotonicity, failed) {
            return failed;
        }
        let row = row_at(s, at);
        at = row.next;
        failed = with_row(failed, row);
    }
    failed
}

// A failure as the answer to its record: the rule that fails, 0 where none does, and its node.
fn accepted(failed: Option<Failure>) -> Accepted
    ensures { result ≡ accepted_for failed }
{
    match failed {
        Some(f) => Accepted {
            value: usize::from(u8::from(f.rule)),
            node: Some(f.node),
        },
        None => Accepted {
            value: 0,
            node: None,
        },
    }
}

// Kind 6. No row is refused, and no history is looked at.
pub fn check_rows(s: &[u8], count: usize) -> Result<Accepted, Refusal>
    requires { places.RowWalk s.now places.first_row count }
    ensures { result ≡ rows_answer (places.rows_at s.now places.first_row count) }
{
    Ok(accepted(check_commit_safety(s, count)))
}
