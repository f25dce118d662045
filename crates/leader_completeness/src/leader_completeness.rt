// The check of a whole history: its answer, its findings and its marks. A refused check leaves every byte.
ghost use Rattle.std.specs.Prelude.{◌≡◌, true, cond};
ghost use Rattle.storage.specs.Rules.{well_formed};
ghost use Rattle.leader_completeness.specs.Check.{check_step};
ghost use Rattle.answers.specs.Step.{Gives};

use crate::judgement::{Committed, judge_all};
use crate::marks::move_marks;
use answers::answer::{Accepted, Refusal};
use commit::committed::committed_prefix;
use log_violation::violation::Notes;
use storage::stored::Stored;
use storage_bytes::layout::{History, PREFIXES};
use storage_rows::prefixes::through;

// The flag of a relevant index: a number and no enum, since it is the record's value, which callers in C read.
const RELEVANT_INDEX: usize = 4;

// The sum of the flags.
fn flags(relevant: bool) -> usize
    ensures { result ≡ cond relevant 4 0 }
{
    if relevant { RELEVANT_INDEX } else { 0 }
}

// The check: judged on a copy of the findings, then the marks and the findings are written. Its value: 4 where an index was relevant,
// else 0. Where the findings would exceed their limit, no mark is moved.
#[tactic(auto, using(storage::proofs::WellFormed::certificates_fit))]
pub fn record_leader_completeness(history: &mut History) -> Result<Accepted, Refusal>
    requires { well_formed history.old ≡ true }
    ensures { Gives (check_step history.old) result history.new }
{
    let Some(prefix) = committed_prefix(history) else {
        return Ok(Accepted::with(0)); // nothing is committed, so no mark is passed
    };
    let end = through(PREFIXES.array(history), prefix);
    let committed = Committed { prefix, end };
    let mut notes = Notes::of(history);
    let relevant = judge_all(Stored { bytes: &*history }, committed, &mut notes);
    notes.fits()?;
    move_marks(history, end);
    notes.keep(history);
    Ok(Accepted::with(flags(relevant)))
}
