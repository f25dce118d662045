// The printed leaders: the term and leader of each LG-05 once, ascending. The n-th is reached from the least, each time to
// the least above it.
ghost use Rattle.std.specs.Prelude.{◌≡◌, ◌≤◌};
ghost use Rattle.storage.specs.Tables.{finding_rows};
ghost use Rattle.storage_rows.specs.Rows.{finding_value};
ghost use Rattle.lists.specs.Leaders.{after, lesser_of, better_of, least_in, next_of, leader_in, leader_answer};
ghost use Rattle.model.specs.Sizes.{finding_limit};

use storage::head::finding_count;
use storage::rows::StoredRow;
use storage::stored::Stored;
use storage_bytes::layout::{FINDINGS, Findings};
use storage_rows::findings::{Found, LG_05};
use units::{NodeId, Term};

// An elected leader without a committed entry. The order is the printed one: by term, then node.
#[derive(Clone, Copy, PartialEq, Eq, PartialOrd, Ord)]
pub struct Leader {
    pub term: Term,
    pub leader: NodeId,
}

// The leader that a finding tells of.
impl From<Found> for Leader {
    ghost from_gives = { λ f l. (l.term ≡ f.term) × (l.leader ≡ f.node) };

    fn from(f: Found) -> Leader {
        Leader {
            term: f.term,
            leader: f.node,
        }
    }
}

// The lesser of the best so far and the finding's leader.
#[tactic(auto, unfolding(crate::specs::Leaders::lesser, crate::specs::Leaders::is_below))]
fn lesser(f: Found, best: Option<Leader>) -> Option<Leader>
    ensures { result ≡ lesser_of (finding_value f) best }
{
    let found = Leader::from(f);
    match best {
        Some(b) => Some(b.min(found)),
        None => Some(found),
    }
}

// The best so far with one more finding, of which only an LG-05 above the last leader counts.
#[tactic(auto, unfolding(crate::specs::Leaders::better_of, crate::specs::Leaders::is_below))]
fn better(f: Found, last: Option<Leader>, best: Option<Leader>) -> Option<Leader>
    ensures { result ≡ better_of (after last) (finding_value f) best }
{
    if f.name != LG_05 || Some(Leader::from(f)) <= last {
        return best;
    }
    lesser(f, best)
}

// The least leader above the last one, of the first m rows.
#[tactic(auto, using(crate::proofs::LeaderLaws::least_start, crate::proofs::LeaderLaws::least_next, crate::proofs::LeaderLaws::least_done))]
fn least_from(findings: &Findings, m: usize, last: Option<Leader>) -> Option<Leader>
    requires { m ≤ finding_limit }
    ensures { result ≡ least_in (after last) (finding_rows findings.now m) }
{
    let mut best = None;
    for k in (0..m).rev() {
        best = better(Found::at(findings, k), last, best);
    }
    best
}

// The least leader above one.
#[tactic(auto, unfolding(crate::specs::Leaders::next_of))]
fn next_leader(findings: &Findings, m: usize, found: Option<Leader>) -> Option<Leader>
    requires { m ≤ finding_limit }
    ensures { result ≡ next_of (finding_rows findings.now m) found }
{
    least_from(findings, m, Some(found?))
}

// The n-th leader of the first m rows, counted from 0.
fn leader_in(findings: &Findings, m: usize, n: usize) -> Option<Leader>
    requires { m ≤ finding_limit }
    ensures { result ≡ leader_in (finding_rows findings.now m) n }
{
    let mut found = least_from(findings, m, None);
    for _ in 0..n {
        found = next_leader(findings, m, found);
    }
    found
}

// The n-th printed leader, counted from 0. There are no more than findings.
#[tactic(auto, using(storage::proofs::WellFormed::formed, crate::proofs::LeaderLaws::leaders_past, crate::proofs::LeaderLaws::leaders_lent))]
pub fn leader_at(history: Stored<'_>, n: usize) -> Option<Leader>
    ensures { result ≡ leader_answer history.entry.bytes.now n }
{
    let bytes = history.bytes;
    let m = finding_count(bytes);
    if m <= n {
        return None;
    }
    leader_in(FINDINGS.array(bytes), m, n)
}
