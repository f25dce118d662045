// The relevant index of a certificate: the last committed index after its mark with a recorded term earlier than its own.
ghost use Rattle.std.specs.Prelude.{◌≡◌, ◌≤◌};
ghost use Rattle.model.specs.Check.{is_earlier};
ghost use Rattle.storage.specs.Tables.{term_row};
ghost use Rattle.storage.specs.Values.{committed_end};
ghost use Rattle.storage_rows.specs.Certificates.{certificate_value};
ghost use Rattle.storage_rows.specs.TermSearch.{found_index};
ghost use Rattle.leader_completeness.specs.Relevance.{last_relevant, relevant_in};
ghost use Rattle.model.specs.Sizes.{index_limit};

use storage::head::last_recorded;
use storage::stored::Stored;
use storage_bytes::layout::{TERMS, Terms};
use storage_rows::certificates::Certificate;
use storage_rows::terms::term_of;
use units::{LogIndex, Term};

// A recorded zero is the term of no leader: it is earlier than nothing, as an absent one is.
fn is_earlier(recorded: Term, term: Term) -> bool
    ensures { result ≡ is_earlier recorded.0 term.0 }
{
    recorded > Term::ZERO && recorded < term
}

// From the end back to the mark, so that the first one met is the last.
fn last_relevant(terms: &Terms, end: LogIndex, mark: LogIndex, term: Term) -> Option<LogIndex>
    requires { end.0 ≤ index_limit }
    ensures { result ≡ found_index (last_relevant (term_row terms.now) mark.0 term.0 end.0) }
{
    for k in (mark.0..end.0).rev() {
        let index = LogIndex(k + 1);
        if is_earlier(term_of(terms, index), term) {
            return Some(index);
        }
    }
    None
}

// The certificate's relevant index up to the committed end. Where that does not pass the mark, nothing else is read.
pub fn relevant_index(history: Stored<'_>, end: LogIndex, c: Certificate) -> Option<LogIndex>
    requires { end.0 ≡ committed_end history.bytes.now }
    ensures { result ≡ found_index (relevant_in history.entry.bytes.now (certificate_value c)) }
{
    let bytes = history.bytes;
    if end <= c.mark {
        return None;
    }
    let last = end.min(last_recorded(bytes)); // an index without a recorded term is not relevant
    last_relevant(TERMS.array(bytes), last, c.mark, c.term)
}
