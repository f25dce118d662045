// The storage rules of the table of leaders' logs: of each row by itself, and that no pair of leader and term is kept twice.
ghost use Rattle.std.specs.Prelude.{◌≡◌, ◌-◌, ◌+◌, ◌≤◌, ◌<◌};
ghost use Rattle.storage_bytes.specs.Lists.{every, tabulate};
ghost use Rattle.storage.specs.Tables.{leader_log_row, leader_log_rows};
ghost use Rattle.storage.specs.Rules.{leader_log_right, has_pair, kept_once};
ghost use Rattle.storage_rows.specs.Rows.{leader_log_value};
ghost use Rattle.model.specs.Sizes.{leader_log_limit};

use storage::rows::{StoredRow, all_rows};
use storage_bytes::layout::LeaderLogs;
use storage_rows::leader_logs::{LeaderLog, is_pair};
use units::{LogIndex, NodeId};

// The storage rules of one row by itself, where n prefixes are stored.
#[tactic(auto, unfolding(storage::specs::Rules::leader_log_right))]
fn leader_log_right(n: usize, x: LeaderLog) -> bool
    ensures { result ≡ leader_log_right n (leader_log_value x) }
{
    if NodeId::LAST < x.node {
        return false;
    }
    if n < x.front.0 {
        return false;
    }
    x.last <= LogIndex::LAST
}

// The storage rules of every one of m rows by itself.
pub fn leader_logs_right(logs: &LeaderLogs, m: usize, n: usize) -> bool
    requires { m ≤ leader_log_limit }
    ensures { result ≡ every (leader_log_right n) (leader_log_rows logs.now m) }
{
    all_rows(logs, m, |x: LeaderLog| leader_log_right(n, x))
}

// One of the rows behind row k, of m, is of its pair.
fn is_kept_again(logs: &LeaderLogs, k: usize, m: usize) -> bool
    requires { (k < m) × (m ≤ leader_log_limit) }
    ensures { result ≡ has_pair (leader_log_row logs.now k).node (leader_log_row logs.now k).term (tabulate (leader_log_row logs.now) (k + 1) (m - (k + 1))) }
{
    let x = LeaderLog::at(logs, k);
    (k + 1..m).any(|j| is_pair(logs, j, x.node, x.term))
}

// No pair is kept twice.
pub fn kept_once(logs: &LeaderLogs, m: usize) -> bool
    requires { m ≤ leader_log_limit }
    ensures { result ≡ kept_once (leader_log_rows logs.now m) }
{
    (0..m).all(|k| !is_kept_again(logs, k, m))
}
