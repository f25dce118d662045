// An election is judged with nothing written, then its certificate is kept (the type is that of state/election.rs): the first
// `length` entries of the leader's front, or no log.
ghost use Rattle.std.specs.Prelude.{◌≡◌, ◌<◌, true, is_some, unwrap_or};
ghost use Rattle.storage.specs.Rules.{well_formed};
ghost use Rattle.storage_rows.specs.Certificates.{certificate_value};
ghost use Rattle.model.specs.Sizes.{node_count};
ghost use Rattle.election.specs.Certify.{kept, election_step};
ghost use Rattle.answers.specs.Step.{Gives};

use crate::judging::number_in_term;
use answers::answer::{Accepted, Refusal};
use log_prefix::lookup::front_through;
use record_reading::head::Election;
use storage::head::certificate_count;
use storage::stored::Stored;
use storage_bytes::layout::History;
use storage_rows::certificates::{Certificate, add_certificate};
use units::{CERTIFICATE_LIMIT, LogIndex, LogPrefixWitness};

// A new certificate: nothing of its log is checked yet.
fn new_certificate(e: Election, number: usize, log: LogPrefixWitness) -> Certificate
    ensures { certificate_value result ≡ kept e.leader.0 e.term.0 number (is_some e.length) log.0 }
{
    Certificate {
        term: e.term,
        log: e.length.is_some().then_some(log),
        mark: LogIndex::ZERO,
        leader: e.leader,
        number,
    }
}

// An election of the leader in the term, with the first `length` entries of its front where its log is present: 9, then 10, else the
// certificate is put in its place.
#[tactic(auto, using(crate::proofs::Turns::place_fits))]
pub fn record_election(history: &mut History, e: Election) -> Result<Accepted, Refusal>
    requires { (well_formed history.old ≡ true) × (e.leader.0 < node_count) }
    ensures { Gives (election_step history.old e.leader.0 e.term.0 (is_some e.length) (unwrap_or e.length 0)) result history.new }
{
    let end = LogIndex(e.length.unwrap_or(0)); // an absent log is no longer than any front
    let Some(log) = front_through(Stored { bytes: &*history }, e.leader, end) else {
        return Err(Refusal::LengthExceedsFront);
    };
    if CERTIFICATE_LIMIT <= certificate_count(history) {
        return Err(Refusal::CertificatesFull);
    }
    let next = number_in_term(Stored { bytes: &*history }, e.term);
    let c = new_certificate(e, next.number, log);
    add_certificate(history, next.place, c);
    Ok(Accepted::with(0))
}
