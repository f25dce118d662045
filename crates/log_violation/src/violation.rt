// Findings are noted once (types/violation.rs). A record that may bring many is judged on a copy of the history's table, so that
// nothing is written before it is accepted; then the copy is written back. A single finding is noted in place (`note_in`).
ghost use Rattle.std.specs.Prelude.{◌≡◌, ◌≤◌, ◌<◌, [], ◌∷◌, length};
ghost use Rattle.storage_bytes.specs.Layout.{findings_length};
ghost use Rattle.storage.specs.Tables.{findings_part};
ghost use Rattle.storage.specs.Head.{findings_held};
ghost use Rattle.storage_rows.specs.Rows.{finding_value};
ghost use Rattle.log_violation.specs.Violation.{same_numbers, is_noted, note_held, note_bytes, NotedAll, findings_kept, fits_answer, room_answer, noted_in};
ghost use Rattle.answers.specs.declared.answer.Refusal.{Refusal};
ghost use Rattle.model.specs.Sizes.{finding_limit};

use answers::answer::Refusal;
use storage::head::{finding_count, set_finding_count};
use storage::rows::{Row, StoredRow};
use storage_bytes::layout::{FINDINGS, Findings, History};
use storage_bytes::words::put_bytes;
use storage_rows::findings::Found;
use units::FINDING_LIMIT;

// The findings would exceed their limit: refusal 7.
#[derive(Clone, Copy, PartialEq, Eq)]
pub struct FindingsFull;

impl From<FindingsFull> for Refusal {
    ghost from_gives = { λ _ r. r ≡ Refusal.FindingsFull };

    fn from(_e: FindingsFull) -> Refusal {
        Refusal::FindingsFull
    }
}

// Both are one finding: the comparison in the model's words.
#[tactic(auto, unfolding(crate::specs::Violation::same_numbers))]
fn is_same(x: Found, f: Found) -> bool
    ensures { result ≡ same_numbers (finding_value x) (finding_value f) }
{
    x == f
}

// The finding is among the first n.
fn is_noted(findings: &[u8], n: usize, f: Found) -> bool
    requires { (n ≤ finding_limit) × (length findings.now ≡ findings_length) }
    ensures { result ≡ is_noted findings.now n (finding_value f) }
{
    (0..n).any(|k| is_same(Found::at(findings, k), f))
}

// The finding is noted among n, once; how many are held then. One more than the limit: there are too many.
fn note(findings: &mut [u8], n: usize, f: Found) -> usize
    requires { length findings.old ≡ findings_length }
    ensures { (result ≡ note_held findings.old n (finding_value f)) × (findings.new ≡ note_bytes findings.old n (finding_value f)) }
{
    if FINDING_LIMIT < n || is_noted(findings, n, f) {
        return n;
    }
    if n < FINDING_LIMIT {
        f.put(findings, n);
    }
    n + 1
}

// The finding is noted among the history's own. Where there is no room for it, nothing is written. The table is lent on the spot: a
// function that lends a region to be written was tried, and its `Lends` did not prove for a range.
pub fn note_in(history: &mut History, f: Found) -> Result<(), FindingsFull>
    requires { findings_held history.old ≤ finding_limit }
    ensures { (result ≡ room_answer history.old (finding_value f)) × (history.new ≡ noted_in history.old (finding_value f)) }
{
    let held = finding_count(history);
    let a = FINDINGS.start;
    let e = a + FINDINGS.length;
    let n = note(&mut history[a..e], held, f);
    if FINDING_LIMIT < n {
        return Err(FindingsFull);
    }
    set_finding_count(history, n);
    Ok(())
}

// The findings while a record is judged: a copy of the history's table, in fixed memory, and how many it holds. One more than the
// limit: there are too many. That is no error on the spot: a view's prefixes are counted to the end first, since 6 comes before
// 7. So the count itself says it: an Option would be opened at each note to say no more.
#[derive(Clone, Copy)]
pub struct Notes {
    pub rows: Findings,
    pub held: usize,
}

impl Notes {
    // The history's own.
    pub fn of(history: &History) -> Notes
        ensures { (result.held ≡ findings_held history.now) × (result.rows ≡ findings_part history.now) }
    {
        Notes {
            rows: *FINDINGS.array(history),
            held: finding_count(history),
        }
    }

    // The finding is noted, once.
    #[tactic(auto, unfolding(crate::specs::Violation::held_all, crate::specs::Violation::bytes_all))]
    pub fn note(&mut self, f: Found)
        ensures { NotedAll self.old.rows self.old.held (finding_value f ∷ []) self.new.held self.new.rows }
    {
        self.held = note(&mut self.rows, self.held, f);
    }

    // No more are held than the limit.
    #[tactic(auto, unfolding(crate::specs::Violation::fits_answer))]
    pub fn fits(&self) -> Result<(), FindingsFull>
        ensures { result ≡ fits_answer self.now.held }
    {
        if FINDING_LIMIT < self.held {
            return Err(FindingsFull);
        }
        Ok(())
    }

    // They become the history's. As many as it holds are its own: then nothing is written.
    pub fn keep(&self, history: &mut History)
        ensures { history.new ≡ findings_kept history.old self.now.rows self.now.held }
    {
        if self.held == finding_count(history) {
            return;
        }
        put_bytes(history, FINDINGS.start, &self.rows);
        set_finding_count(history, self.held);
    }
}
