// The printed findings, by name, node, term, index. They are stored in the order found, so the n-th printed one is looked
// for: of each stored one it is counted how many later ones are printed before it.
ghost use Rattle.std.specs.Prelude.{◌≡◌, ◌-◌, ◌≤◌};
ghost use Rattle.storage_bytes.specs.Lists.{tabulate};
ghost use Rattle.storage.specs.Tables.{finding_row, finding_rows};
ghost use Rattle.storage_rows.specs.Rows.{finding_value};
ghost use Rattle.lists.specs.Findings.{comes_before, count_first, pick_ordered, finding_answer};
ghost use Rattle.model.specs.Sizes.{finding_limit};

use storage::head::finding_count;
use storage::rows::StoredRow;
use storage::stored::Stored;
use storage_bytes::layout::{FINDINGS, Findings};
use storage_rows::findings::Found;

// f is printed before g: the order in the model's words.
#[tactic(auto, unfolding(crate::specs::Findings::comes_before))]
fn comes_before(f: Found, g: Found) -> bool
    ensures { result ≡ comes_before (finding_value f) (finding_value g) }
{
    f < g
}

// How many of the rows from k on, before m, f does not come before.
fn count_first(findings: &Findings, k: usize, m: usize, f: Found) -> usize
    requires { m ≤ finding_limit }
    ensures { result ≡ count_first (finding_value f) (tabulate (finding_row findings.now) k (m - k)) }
{
    (k..m)
        .filter(|j| !comes_before(f, Found::at(findings, *j)))
        .count()
}

// The n-th of the first m rows in printed order, counted from 0.
#[tactic(auto, using(crate::proofs::OrderLaws::order_here, crate::proofs::OrderLaws::order_behind, crate::proofs::OrderLaws::order_front, crate::proofs::OrderLaws::order_none))]
fn finding_in(findings: &Findings, m: usize, n: usize) -> Option<Found>
    requires { m ≤ finding_limit }
    ensures { result ≡ pick_ordered (finding_rows findings.now m) n }
{
    let mut left = n;
    for k in 0..m {
        let f = Found::at(findings, k);
        let p = count_first(findings, k + 1, m, f);
        if left == p {
            return Some(f);
        }
        if p < left {
            left -= 1;
        }
    }
    None
}

// The n-th printed finding, counted from 0.
#[tactic(auto, using(storage::proofs::WellFormed::formed, crate::proofs::FindingWhole::findings_lent))]
pub fn finding_at(history: Stored<'_>, n: usize) -> Option<Found>
    ensures { result ≡ finding_answer history.entry.bytes.now n }
{
    let bytes = history.bytes;
    finding_in(FINDINGS.array(bytes), finding_count(bytes), n)
}
