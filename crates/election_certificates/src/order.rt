// The certificates held stand by term, then arrival, and a new one is mostly of the newest term: so its place is looked for
// from the end, row by row, and its number only among those of its term, right before the place. A
// library's search of sorted rows would begin in the middle. How many there are is asked, as the table is lent without the head.
ghost use Rattle.std.specs.Prelude.{◌≡◌, ◌≤◌};
ghost use Rattle.storage.specs.Tables.{certificate_row};
ghost use Rattle.election_certificates.specs.Order.{place_from, held_before};
ghost use Rattle.model.specs.Sizes.{certificate_limit};

use storage_bytes::layout::Certificates;
use storage_rows::certificates::term_at;
use units::Term;

// How many of the n stand before those of a later term: from the end back, the first that is of no later one is the last of them.
#[tactic(auto, using(crate::proofs::Loops::place_none))]
pub fn place_of(certificates: &Certificates, n: usize, term: Term) -> usize
    requires { n ≤ certificate_limit }
    ensures { result ≡ place_from (certificate_row certificates.now) term.0 n }
{
    for k in (0..n).rev() {
        if term_at(certificates, k) <= term {
            return k + 1;
        }
    }
    0
}

// How many right before the place are of the term.
#[tactic(auto, using(crate::proofs::Loops::held_stop, crate::proofs::Loops::held_next, crate::proofs::Loops::held_none))]
pub fn held_of(certificates: &Certificates, place: usize, term: Term) -> usize
    requires { place ≤ certificate_limit }
    ensures { result ≡ held_before (certificate_row certificates.now) term.0 place }
{
    for k in (0..place).rev() {
        if term_at(certificates, k) != term {
            return place - 1 - k;
        }
    }
    place // all of them
}
