// The storage rules of a whole history, whose breach is answered 12. What it costs to test them follows what is held.
ghost use Rattle.std.specs.Prelude.{◌≡◌, false, MatchOption};
ghost use Rattle.storage.specs.Rules.{well_formed};

use crate::certificates::{certificates_right, numbered};
use crate::findings::findings_right;
use crate::head::{committed_right, within_limits};
use crate::leader_logs::{kept_once, leader_logs_right};
use crate::nodes::nodes_right;
use crate::prefixes::prefixes_right;
use storage::head::{certificate_count, finding_count, leader_log_count, prefix_count};
use storage::stored::Stored;
use storage_bytes::layout::{
    CERTIFICATES, FINDINGS, HEAD, HISTORY_LENGTH, History, LEADER_LOGS, NODES, PREFIXES,
};

// The bytes keep the storage rules.
#[tactic(auto, using(crate::proofs::AllRules::rules_in_turn, storage::proofs::RuleLaws::within))]
fn rules_kept(history: &History) -> bool
    ensures { result ≡ well_formed history.now }
{
    let head = HEAD.of(history);
    if !within_limits(head) {
        return false;
    }
    if !committed_right(head) {
        return false;
    }
    let n = prefix_count(head);
    if !nodes_right(NODES.array(history), n) {
        return false;
    }
    let certificates = CERTIFICATES.array(history);
    let m = certificate_count(head);
    if !certificates_right(certificates, m, n) {
        return false;
    }
    if !numbered(certificates, m) {
        return false;
    }
    if !findings_right(FINDINGS.array(history), finding_count(head)) {
        return false;
    }
    let logs = LEADER_LOGS.array(history);
    let l = leader_log_count(head);
    if !leader_logs_right(logs, l, n) {
        return false;
    }
    if !kept_once(logs, l) {
        return false;
    }
    prefixes_right(PREFIXES.array(history), n)
}

// The history lent, where it keeps them.
#[tactic(auto, using(crate::proofs::AllRules::wrong_length))]
pub fn stored(history: &[u8]) -> Option<Stored<'_>>
    ensures { MatchOption result (well_formed history.now ≡ false) (λ s. s.bytes.now ≡ history.now) }
{
    let bytes = history.as_array::<HISTORY_LENGTH>()?;
    if !rules_kept(bytes) {
        return None;
    }
    Some(Stored { bytes })
}

// The same as a test alone.
pub fn well_formed(history: &[u8]) -> bool
    ensures { result ≡ well_formed history.now }
{
    stored(history).is_some()
}
