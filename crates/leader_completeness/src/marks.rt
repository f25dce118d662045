// Checked marks: that of a certificate moves to the committed end where that passes it, with or without a relevant index.
// Only the mark moves. One that is not passed is left as it is, and nothing else of its certificate is read.
ghost use Rattle.std.specs.Prelude.{◌≡◌, ◌≤◌, ◌<◌};
ghost use Rattle.leader_completeness.specs.Marks.{mark_moved, marks_moved};
ghost use Rattle.storage.specs.Head.{certificates_held};
ghost use Rattle.model.specs.Sizes.{certificate_limit};
ghost use Rattle.storage_bytes.specs.Layout.{certificate_mark};

use election_certificates::mark::with_mark;
use election_certificates::marks::{mark_of, put_mark_of};
use storage::head::certificate_count;
use storage_bytes::layout::{CERTIFICATES, History};
use storage_rows::certificates::certificate_at;
use units::LogIndex;

// The mark of certificate k. The certificate is read for `with_mark`, the one function that sets a mark, and only its mark is written.
#[tactic(auto, unfolding(crate::specs::Marks::mark_moved))]
pub fn move_mark(history: &mut History, k: usize, end: LogIndex)
    requires { k < certificate_limit }
    ensures { history.new ≡ mark_moved history.old k end.0 }
{
    if end <= mark_of(history, k) {
        return;
    }
    let c = certificate_at(CERTIFICATES.array(history), k);
    let moved = with_mark(c, end);
    put_mark_of(history, k, moved.mark);
}

// The marks of all certificates.
#[tactic(auto, using(crate::proofs::MarkLaws::moving_starts, crate::proofs::MarkLaws::moving_next, crate::proofs::MarkLaws::moving_ends))]
pub fn move_marks(history: &mut History, end: LogIndex)
    requires { certificates_held history.old ≤ certificate_limit }
    ensures { history.new ≡ marks_moved history.old end.0 0 (certificates_held history.old) }
{
    let m = certificate_count(history);
    for k in 0..m {
        move_mark(history, k, end);
    }
}
