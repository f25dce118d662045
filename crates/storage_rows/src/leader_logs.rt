// The table of leaders' logs: of each pair of leader and term the view that was kept for it, its front and its last index, which counts
// entries past a gap. A pair has one row, in the order first kept.
ghost use Rattle.std.specs.Prelude.{◌≡◌, ◌+◌, ◌*◌, ◌≤◌, ◌<◌, refl};
ghost use Rattle.std.proofs.Common.{lit≤};
ghost use Rattle.storage.specs.Tables.{LeaderLogRow, leader_log_row};
ghost use Rattle.storage.specs.Rules.{is_pair};
ghost use Rattle.storage.proofs.RowLaws.{leader_log_length};
ghost use Rattle.storage_rows.specs.Rows.{leader_log_value};
ghost use Rattle.storage_bytes.specs.declared.layout.TheConstants.{LEADER_LOGS};
ghost use Rattle.storage_bytes.specs.Layout.{leader_log_width};
ghost use Rattle.storage.specs.Writes.{leader_log_bytes, leader_log_appended};
ghost use Rattle.storage.specs.Head.{leader_logs_held};
ghost use Rattle.model.specs.Sizes.{leader_log_limit};

use storage::head::{leader_log_count, set_leader_log_count};
use storage::rows::{Row, StoredRow, set};
use storage_bytes::layout::{
    History, LEADER_LOG_FRONT, LEADER_LOG_LAST, LEADER_LOG_TERM, LEADER_LOG_WIDTH, LEADER_LOGS,
    LeaderLogs, Region,
};
use storage_bytes::words::Field;
use units::{LogIndex, LogPrefixWitness, NodeId, Term};

#[derive(Clone, Copy, PartialEq, Eq)]
pub struct LeaderLog {
    pub node: NodeId,
    pub term: Term,
    pub front: LogPrefixWitness,
    pub last: LogIndex,
}

impl Row for LeaderLog {
    ghost TABLE = { LEADER_LOGS };

    ghost width = { leader_log_width };

    ghost count = { leader_log_limit };

    ghost bytes = { λ x. leader_log_bytes (leader_log_value x) };

    ghost whole = { λ x. Unit {0} };

    ghost inside = { lit≤ tt };

    ghost filled = { refl };

    ghost wide = { λ x _. leader_log_length (leader_log_value x) };

    const TABLE: Region = LEADER_LOGS;

    #[tactic(auto, using(storage_bytes::proofs::WordLaws::put_join, storage_bytes::proofs::WordLaws::word_bytes_length), unfolding(storage::specs::Writes::leader_log_bytes))]
    fn put(self, logs: &mut [u8], k: usize) {
        let o = k * LEADER_LOG_WIDTH;
        self.node.write(logs, o);
        self.term.write(logs, o + LEADER_LOG_TERM);
        self.front.write(logs, o + LEADER_LOG_FRONT);
        self.last.write(logs, o + LEADER_LOG_LAST);
    }
}

impl StoredRow for LeaderLog {
    ghost Value = { LeaderLogRow };

    ghost value = { leader_log_value };

    ghost stored = { leader_log_row };

    fn at(logs: &[u8], k: usize) -> LeaderLog {
        let o = k * LEADER_LOG_WIDTH;
        LeaderLog {
            node: NodeId::read(logs, o),
            term: Term::read(logs, o + LEADER_LOG_TERM),
            front: LogPrefixWitness::read(logs, o + LEADER_LOG_FRONT),
            last: LogIndex::read(logs, o + LEADER_LOG_LAST),
        }
    }
}

// Row k is of the node and the term. Only these are read: a search passes over most rows.
#[tactic(auto, unfolding(storage::specs::Rules::is_pair))]
pub fn is_pair(logs: &LeaderLogs, k: usize, node: NodeId, term: Term) -> bool
    requires { k < leader_log_limit }
    ensures { result ≡ is_pair node.0 term.0 (leader_log_row logs.now k) }
{
    let o = k * LEADER_LOG_WIDTH;
    if NodeId::read(logs, o) != node {
        return false;
    }
    Term::read(logs, o + LEADER_LOG_TERM) == term
}

// One more.
#[tactic(auto, unfolding(storage::specs::Writes::leader_log_appended))]
pub fn append(history: &mut History, row: LeaderLog)
    requires { leader_logs_held history.old < leader_log_limit }
    ensures { history.new ≡ leader_log_appended history.old (leader_log_value row) }
{
    let n = leader_log_count(history);
    set(history, n, row);
    set_leader_log_count(history, n + 1);
}
