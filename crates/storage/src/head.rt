// The head: how many rows each table holds, and the committed prefix's number and owner. It is the history's first bytes, so
// each function takes the head or the whole history: an array's type would ask for more than these few bytes. One generic function would
// take a field's place and type at each call, where its name stands now. A table is lent without the head, so who goes over as many of
// its rows as are held asks that it has so many.
ghost use Rattle.std.specs.Prelude.{◌≡◌, ◌≤◌, length};
ghost use Rattle.storage_bytes.specs.Layout.{head_length, prefixes_field, terms_field, committed_field, certificates_field, findings_field, owner_field, leader_logs_field};
ghost use Rattle.storage.specs.Head.{HeadField, put_head_field};
ghost use Rattle.storage.specs.Writes.{committed_set};

use storage_bytes::layout::{
    CERTIFICATES_HELD, COMMITTED_NUMBER, FINDINGS_HELD, LEADER_LOGS_HELD, OWNER, PREFIXES_HELD,
    TERMS_HELD,
};
use storage_bytes::words::{Field, get16, put8, put16};
use units::{LogIndex, LogPrefixWitness, NodeId};

pub fn prefix_count(head: &[u8]) -> usize
    requires { head_length ≤ length head.now }
    ensures { HeadField prefixes_field head.now result }
{
    get16(head, PREFIXES_HELD)
}

// The last index with a place among the commit terms.
pub fn last_recorded(head: &[u8]) -> LogIndex
    requires { head_length ≤ length head.now }
    ensures { HeadField terms_field head.now result.0 }
{
    LogIndex::read(head, TERMS_HELD)
}

// The number stored for the committed prefix, as it stands: that of the empty one where none is kept. `committed_prefix` looks it
// up.
pub fn committed(head: &[u8]) -> LogPrefixWitness
    requires { head_length ≤ length head.now }
    ensures { HeadField committed_field head.now result.0 }
{
    LogPrefixWitness::read(head, COMMITTED_NUMBER)
}

pub fn certificate_count(head: &[u8]) -> usize
    requires { head_length ≤ length head.now }
    ensures { HeadField certificates_field head.now result }
{
    usize::from(u8::read(head, CERTIFICATES_HELD))
}

pub fn finding_count(head: &[u8]) -> usize
    requires { head_length ≤ length head.now }
    ensures { HeadField findings_field head.now result }
{
    usize::from(u8::read(head, FINDINGS_HELD))
}

// The owner of the committed prefix.
pub fn owner(head: &[u8]) -> NodeId
    requires { head_length ≤ length head.now }
    ensures { HeadField owner_field head.now result.0 }
{
    NodeId::read(head, OWNER)
}

pub fn leader_log_count(head: &[u8]) -> usize
    requires { head_length ≤ length head.now }
    ensures { HeadField leader_logs_field head.now result }
{
    usize::from(u8::read(head, LEADER_LOGS_HELD))
}

pub fn set_prefix_count(head: &mut [u8], n: usize)
    requires { head_length ≤ length head.old }
    ensures { head.new ≡ put_head_field prefixes_field head.old n }
{
    put16(head, PREFIXES_HELD, n);
}

pub fn set_last_recorded(head: &mut [u8], index: LogIndex)
    requires { head_length ≤ length head.old }
    ensures { head.new ≡ put_head_field terms_field head.old index.0 }
{
    index.write(head, TERMS_HELD);
}

pub fn set_certificate_count(head: &mut [u8], n: usize)
    requires { head_length ≤ length head.old }
    ensures { head.new ≡ put_head_field certificates_field head.old n }
{
    put8(head, CERTIFICATES_HELD, n);
}

pub fn set_finding_count(head: &mut [u8], n: usize)
    requires { head_length ≤ length head.old }
    ensures { head.new ≡ put_head_field findings_field head.old n }
{
    put8(head, FINDINGS_HELD, n);
}

pub fn set_leader_log_count(head: &mut [u8], n: usize)
    requires { head_length ≤ length head.old }
    ensures { head.new ≡ put_head_field leader_logs_field head.old n }
{
    put8(head, LEADER_LOGS_HELD, n);
}

// The committed prefix and its owner.
#[tactic(auto, unfolding(crate::specs::Writes::committed_set))]
pub fn set_committed(head: &mut [u8], p: LogPrefixWitness, owner: NodeId)
    requires { head_length ≤ length head.old }
    ensures { head.new ≡ committed_set head.old p.0 owner.0 }
{
    p.write(head, COMMITTED_NUMBER);
    owner.write(head, OWNER);
}
