// The storage rules of the head: its counts are within the limits, the committed prefix exists, and its owner is a node. The head's
// bytes or more are lent: the whole history's type would ask for all of it.
ghost use Rattle.std.specs.Prelude.{◌≡◌, ◌≤◌, length};
ghost use Rattle.storage.specs.Rules.{within_limits, committed_right};
ghost use Rattle.storage.specs.Head.{prefixes_held, terms_held, committed_number, certificates_held, findings_held, owner_of, leader_logs_held};
ghost use Rattle.storage_bytes.specs.Layout.{head_length};

use storage::head::{
    certificate_count, committed, finding_count, last_recorded, leader_log_count, owner,
    prefix_count,
};
use units::{CERTIFICATE_LIMIT, FINDING_LIMIT, LEADER_LOG_LIMIT, LogIndex, NodeId, PREFIX_LIMIT};

// The counts are within the limits.
#[tactic(auto, unfolding(storage::specs::Rules::within_limits))]
pub fn within_limits(head: &[u8]) -> bool
    requires { head_length ≤ length head.now }
    ensures { result ≡ within_limits (prefixes_held head.now) (terms_held head.now) (certificates_held head.now) (findings_held head.now) (leader_logs_held head.now) }
{
    if PREFIX_LIMIT < prefix_count(head) {
        return false;
    }
    if LogIndex::LAST < last_recorded(head) {
        return false;
    }
    if CERTIFICATE_LIMIT < certificate_count(head) {
        return false;
    }
    if FINDING_LIMIT < finding_count(head) {
        return false;
    }
    leader_log_count(head) <= LEADER_LOG_LIMIT
}

// The committed prefix exists, and its owner is a node.
#[tactic(auto, unfolding(storage::specs::Rules::committed_right))]
pub fn committed_right(head: &[u8]) -> bool
    requires { head_length ≤ length head.now }
    ensures { result ≡ committed_right (prefixes_held head.now) (committed_number head.now) (owner_of head.now) }
{
    if prefix_count(head) < committed(head).0 {
        return false;
    }
    owner(head) <= NodeId::LAST
}
