// Commit terms (`record_commit_terms`): the term in which each index was committed, as far as it is known. A term that comes
// late can make an index relevant that a check has passed, so the marks past it are lowered.
ghost use Rattle.std.specs.Prelude.{◌≡◌, true, ◌+◌, ◌-◌, ◌≤◌};
ghost use Rattle.storage.specs.Rules.{well_formed};
ghost use Rattle.storage.specs.Tables.{term_row};
ghost use Rattle.storage_rows.specs.TermSearch.{found_index};
ghost use Rattle.model.specs.Sizes.{index_limit};
ghost use Rattle.commit_terms.specs.Terms.{lengthened_to, is_replaced, first_replaced, replace_bytes, replace_all, terms_step};
ghost use Rattle.answers.specs.Step.{Gives};

use answers::answer::{Accepted, Refusal};
use election_certificates::marks::lower_marks;
use record_reading::head::CommitTerms;
use storage::fresh::clear;
use storage::head::{last_recorded, set_last_recorded};
use storage::rows::set;
use storage_bytes::layout::{History, TERM_WIDTH, TERMS, Terms};
use storage_rows::terms::{CommitTerm, term_of};
use units::{LogIndex, Term};

// The list is lengthened with zeros to `new`: the places first, then the count, once. The places are lent on the spot, as the table is in
// `storage::rows::set`.
fn lengthen(history: &mut History, new: LogIndex)
    requires { new.0 ≤ index_limit }
    ensures { history.new ≡ lengthened_to history.old new.0 }
{
    let recorded = last_recorded(history);
    if new <= recorded {
        return;
    }
    let a = TERMS.start + recorded.0 * TERM_WIDTH;
    let e = TERMS.start + new.0 * TERM_WIDTH;
    clear(&mut history[a..e]);
    set_last_recorded(history, new);
}

// A nonzero term replaces one that is zero or greater.
fn is_replaced(x: Term, term: Term) -> bool
    ensures { result ≡ is_replaced term.0 x.0 }
{
    term != Term::ZERO && (x == Term::ZERO || term < x)
}

// The first index from old + 1 to new whose place the term replaces, where there is one. Nothing is written. A
// function of its own in the program too, so that its loop keeps to what it counts.
#[tactic(auto, using(crate::proofs::TermTurns::searching_starts, crate::proofs::TermTurns::searching_found, crate::proofs::TermTurns::searching_next, crate::proofs::TermTurns::searching_none))]
#[inline(never)]
fn first_replaced(terms: &Terms, old: LogIndex, new: LogIndex, term: Term) -> Option<LogIndex>
    requires { (old.0 ≤ new.0) × (new.0 ≤ index_limit) }
    ensures { result ≡ found_index (first_replaced (term_row terms.now) term.0 old.0 (new.0 - old.0)) }
{
    for i in old.0..new.0 {
        let index = LogIndex(i + 1);
        if is_replaced(term_of(terms, index), term) {
            return Some(index);
        }
    }
    None
}

// The place of the index, where the term replaces it.
#[tactic(auto, using(crate::proofs::TermTurns::replace_so, crate::proofs::TermTurns::replace_not))]
fn replace_term(history: &mut History, index: LogIndex, term: Term)
    requires { (1 ≤ index.0) × (index.0 ≤ index_limit) }
    ensures { history.new ≡ replace_bytes history.old (index.0 - 1) term.0 }
{
    let x = term_of(TERMS.array(history), index);
    if is_replaced(x, term) {
        set(history, index.0 - 1, CommitTerm(term));
    }
}

// Each place from the first index to new.
#[tactic(auto, using(crate::proofs::TermTurns::replacing_next, crate::proofs::TermTurns::replacing_ends, crate::proofs::TermTurns::replacing_starts))]
fn replace_terms(history: &mut History, first: LogIndex, new: LogIndex, term: Term)
    requires { (1 ≤ first.0) × (new.0 ≤ index_limit) }
    ensures { history.new ≡ replace_all history.old term.0 (first.0 - 1) (new.0 + 1 - first.0) }
{
    for i in first.0 - 1..new.0 {
        replace_term(history, LogIndex(i + 1), term);
    }
}

// The indexes after old, through new, were committed in the term: 8 when old exceeds new. A repeated record writes nothing.
#[tactic(auto, using(storage::proofs::WellFormed::certificates_fit, crate::proofs::TermTurns::lengthened_certificates, crate::proofs::TermTurns::replace_all_certificates, storage_rows::proofs::TermSearchLaws::index_told))]
pub fn record_commit_terms(history: &mut History, t: CommitTerms) -> Result<Accepted, Refusal>
    requires { (well_formed history.old ≡ true) × (t.new.0 ≤ index_limit) }
    ensures { Gives (terms_step history.old t.old.0 t.new.0 t.term.0) result history.new }
{
    if t.new < t.old {
        return Err(Refusal::OldExceedsNew);
    }
    lengthen(history, t.new);
    let found = first_replaced(TERMS.array(history), t.old, t.new, t.term);
    if let Some(first) = found {
        replace_terms(history, first, t.new, t.term);
        lower_marks(history, t.term, first);
    }
    Ok(Accepted::with(0))
}
