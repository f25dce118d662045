// The checked marks of certificates. Of a row only its term and its mark are read, and the mark alone is written, so the
// rest of its certificate stays as it is.
ghost use Rattle.std.specs.Prelude.{◌≡◌, ◌≤◌, ◌<◌};
ghost use Rattle.election_certificates.specs.Marks.{certificate_of, mark_set, lower_bytes, lower_back};
ghost use Rattle.storage.specs.Head.{certificates_held};
ghost use Rattle.model.specs.Sizes.{certificate_limit};

use storage::head::certificate_count;
use storage_bytes::layout::{CERTIFICATES, History};
use storage_rows::certificates::{mark_at, put_mark, term_at};
use units::{LogIndex, Term};

// The term of certificate k.
fn election_term(history: &History, k: usize) -> Term
    requires { k < certificate_limit }
    ensures { result.0 ≡ (certificate_of history.now k).term }
{
    term_at(CERTIFICATES.array(history), k)
}

// The mark of certificate k.
pub fn mark_of(history: &History, k: usize) -> LogIndex
    requires { k < certificate_limit }
    ensures { result.0 ≡ (certificate_of history.now k).mark }
{
    mark_at(CERTIFICATES.array(history), k)
}

// The mark of certificate k, written. Only the table is lent, on the spot: a function that lends a region to be written was tried, and
// its `Lends` did not prove for a range.
pub fn put_mark_of(history: &mut History, k: usize, mark: LogIndex)
    requires { k < certificate_limit }
    ensures { history.new ≡ mark_set history.old k mark.0 }
{
    let a = CERTIFICATES.start;
    let e = a + CERTIFICATES.length;
    put_mark(&mut history[a..e], k, mark);
}

// Where the mark of certificate k is at or past the first changed index, it goes before that.
#[tactic(auto, unfolding(crate::specs::Marks::lower_bytes))]
fn lower_mark(history: &mut History, k: usize, first: LogIndex)
    requires { (k < certificate_limit) × (1 ≤ first.0) }
    ensures { history.new ≡ lower_bytes history.old first.0 k }
{
    if first <= mark_of(history, k) {
        put_mark_of(history, k, LogIndex(first.0 - 1));
    }
}

// The marks of all certificates of a greater term. They stand by term, so it goes from the last back and stops at the
// first whose term is not greater: none before that is.
pub fn lower_marks(history: &mut History, term: Term, first: LogIndex)
    requires { (certificates_held history.old ≤ certificate_limit) × (1 ≤ first.0) }
    ensures { history.new ≡ lower_back history.old term.0 first.0 (certificates_held history.old) }
{
    for k in (0..certificate_count(history)).rev() {
        if election_term(history, k) <= term {
            return;
        }
        lower_mark(history, k, first);
    }
}
