// The storage rule that no prefix is stored twice: a row is held against the rows before it.
ghost use Rattle.std.specs.Prelude.{◌≡◌, ◌-◌, ◌≤◌, ◌<◌};
ghost use Rattle.storage_bytes.specs.Lists.{tabulate};
ghost use Rattle.storage.specs.Tables.{prefix_row};
ghost use Rattle.storage.specs.Rules.{same_row, is_among};
ghost use Rattle.model.specs.Sizes.{prefix_limit};

use storage_bytes::layout::PrefixTable;
use storage_rows::prefixes::{content_at, mark_at, parent_at, size_at, term_at};

// Rows j and k store the same prefix. Field by field, since most rows differ in the first that is read: a row has 42 bytes.
#[tactic(auto, unfolding(storage::specs::Rules::same_row), using(storage_bytes::proofs::ByteTurns::pointwise_bytes))]
fn same_row(prefixes: &PrefixTable, j: usize, k: usize) -> bool
    requires { (j < prefix_limit) × (k < prefix_limit) }
    ensures { result ≡ same_row (prefix_row prefixes.now j) (prefix_row prefixes.now k) }
{
    if parent_at(prefixes, j) != parent_at(prefixes, k) {
        return false;
    }
    if term_at(prefixes, j) != term_at(prefixes, k) {
        return false;
    }
    if mark_at(prefixes, j) != mark_at(prefixes, k) {
        return false;
    }
    // Two rows that break the storage rules can have the same content and not the same size.
    if size_at(prefixes, j) != size_at(prefixes, k) {
        return false;
    }
    content_at(prefixes, j) == content_at(prefixes, k)
}

// One of the rows from `start` on, before k, stores the same prefix as k.
pub fn is_among(prefixes: &PrefixTable, start: usize, k: usize) -> bool
    requires { (start ≤ k) × (k < prefix_limit) }
    ensures { result ≡ is_among (prefix_row prefixes.now k) (tabulate (prefix_row prefixes.now) start (k - start)) }
{
    (start..k).any(|j| same_row(prefixes, j, k))
}
