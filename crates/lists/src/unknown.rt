// The printed unknown indexes: those of the committed prefix whose commit term is zero or absent, ascending.
ghost use Rattle.std.specs.Prelude.{◌≡◌, ◌≤◌, ◌-◌};
ghost use Rattle.lists.specs.Unknown.{is_known, index_in, unknown_answer};
ghost use Rattle.model.specs.Sizes.{index_limit};

use crate::committed::printed_committed;
use crate::pick::nth_held;
use storage::head::last_recorded;
use storage::stored::Stored;
use storage_bytes::layout::{TERMS, Terms};
use storage_rows::terms::term_of;
use units::{LogIndex, Term};

// The index has a term, of those recorded through `last`.
#[tactic(auto, unfolding(crate::specs::Unknown::is_known))]
fn is_known(terms: &Terms, last: LogIndex, index: LogIndex) -> bool
    requires { (1 ≤ index.0) × (last.0 ≤ index_limit) }
    ensures { result ≡ is_known terms.now last.0 (index.0 - 1) }
{
    if last < index {
        return false;
    }
    term_of(terms, index) != Term::ZERO
}

// The n-th unknown index through `end`, counted from 0.
fn index_in(terms: &Terms, last: LogIndex, end: LogIndex, n: usize) -> Option<LogIndex>
    requires { (last.0 ≤ index_limit) × (end.0 ≤ index_limit) }
    ensures { result ≡ index_in terms.now last.0 end.0 n }
{
    nth_held(end.0, n, |i| {
        let index = LogIndex(i + 1);
        if is_known(terms, last, index) {
            return None;
        }
        Some(index)
    })
}

// The n-th printed index, counted from 0.
#[tactic(auto, using(storage::proofs::WellFormed::formed, storage::proofs::WellFormed::end_small, crate::proofs::IndexWhole::unknown_lent))]
pub fn unknown_at(history: Stored<'_>, n: usize) -> Option<LogIndex>
    ensures { result ≡ unknown_answer history.entry.bytes.now n }
{
    let end = printed_committed(history).length;
    let bytes = history.bytes;
    let last = last_recorded(bytes);
    index_in(TERMS.array(bytes), last, end, n)
}
