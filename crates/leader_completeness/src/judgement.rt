// A certificate judged: whether it has a relevant index, LG-05 where its log is absent, shorter or different through
// it. Nothing of the history is written; findings are noted in a copy of its table (`Notes`).
ghost use Rattle.std.specs.Prelude.{◌≡◌, ◌≤◌};
ghost use Rattle.storage.specs.Values.{committed_end};
ghost use Rattle.storage.specs.Head.{prefixes_held, committed_number};
ghost use Rattle.storage_rows.specs.Certificates.{certificate_value};
ghost use Rattle.leader_completeness.specs.Judgement.{lacks_through, JudgedAs, JudgedAll};

use crate::relevance::relevant_index;
use commit::committed::agree_through;
use log_violation::violation::Notes;
use storage::head::certificate_count;
use storage::stored::Stored;
use storage_bytes::layout::CERTIFICATES;
use storage_rows::certificates::{Certificate, certificate_at};
use storage_rows::findings::{Found, LG_05};
use units::{LogIndex, LogPrefixWitness};

// The committed prefix that certificates are held against, and its last index. That they are the history's is asked: it is made at one
// place, and a struct with the history in it would say there what two functions ask.
#[derive(Clone, Copy)]
pub struct Committed {
    pub prefix: LogPrefixWitness,
    pub end: LogIndex,
}

// The certificate's log is absent, or shorter than the committed prefix through the index, or different.
#[tactic(auto, using(storage::proofs::WellFormed::committed_fits))]
fn lacks_through(
    history: Stored<'_>,
    committed: LogPrefixWitness,
    c: Certificate,
    index: LogIndex,
) -> bool
    requires { (committed.0 ≡ committed_number history.bytes.now) × ((certificate_value c).log ≤ prefixes_held history.bytes.now) }
    ensures { result ≡ lacks_through history.entry.bytes.now (certificate_value c) index.0 }
{
    let Some(log) = c.log else {
        return true;
    };
    !agree_through(history, log, committed, index)
}

// One certificate: whether it has a relevant index. LG-05 is noted where its log lacks the committed prefix through it.
pub fn judge(history: Stored<'_>, committed: Committed, c: Certificate, notes: &mut Notes) -> bool
    requires { (committed.prefix.0 ≡ committed_number history.bytes.now) × (committed.end.0 ≡ committed_end history.bytes.now) × ((certificate_value c).log ≤ prefixes_held history.bytes.now) }
    ensures { JudgedAs history.entry.bytes.now (certificate_value c) notes.old.rows notes.old.held result notes.new.held notes.new.rows }
{
    let Some(index) = relevant_index(history, committed.end, c) else {
        return false;
    };
    if lacks_through(history, committed.prefix, c, index) {
        notes.note(Found {
            name: LG_05,
            node: c.leader,
            index,
            term: c.term,
        });
    }
    true
}

// Every certificate, by term, then arrival, as they are stored: whether one has a relevant index.
#[tactic(auto, using(storage::proofs::WellFormed::certificates_fit))]
pub fn judge_all(history: Stored<'_>, committed: Committed, notes: &mut Notes) -> bool
    requires { (committed.prefix.0 ≡ committed_number history.bytes.now) × (committed.end.0 ≡ committed_end history.bytes.now) }
    ensures { JudgedAll history.entry.bytes.now notes.old.rows notes.old.held result notes.new.held notes.new.rows }
{
    let bytes = history.bytes;
    let m = certificate_count(bytes);
    let certificates = CERTIFICATES.array(bytes);
    let mut relevant = false;
    for k in 0..m {
        let c = certificate_at(certificates, k);
        relevant |= judge(history, committed, c, notes);
    }
    relevant
}
