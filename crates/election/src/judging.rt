// What an election is judged by, with nothing written: the place and the number of a new certificate of its term.
ghost use Rattle.std.specs.Prelude.{◌≡◌};
ghost use Rattle.election.specs.Numbering.{numbering_in};

use election_certificates::order::{held_of, place_of};
use storage::head::certificate_count;
use storage::stored::Stored;
use storage_bytes::layout::CERTIFICATES;
use units::Term;

// The place of a new certificate, and its number within its term.
#[derive(Clone, Copy)]
pub struct Numbering {
    pub place: usize,
    pub number: usize,
}

// The place and the number are found once. The number is how many the term holds, so none of the term has it.
#[tactic(auto, using(storage::proofs::WellFormed::certificates_fit, crate::proofs::NumberingTurns::place_fits))]
pub fn number_in_term(history: Stored<'_>, term: Term) -> Numbering
    ensures { result ≡ numbering_in history.entry.bytes.now term.0 }
{
    let bytes = history.bytes;
    let n = certificate_count(bytes);
    let certificates = CERTIFICATES.array(bytes);
    let place = place_of(certificates, n, term);
    let number = held_of(certificates, place, term);
    Numbering { place, number }
}
