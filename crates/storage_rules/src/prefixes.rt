// The storage rules of the table of prefixes: a row is right by the rows before it.
ghost use Rattle.std.specs.Prelude.{◌≡◌, [], ◌≤◌, ◌<◌};
ghost use Rattle.storage.specs.Tables.{prefix_row, rows_of_prefixes};
ghost use Rattle.storage.specs.Rules.{prefix_right, prefixes_right_after};
ghost use Rattle.model.specs.Sizes.{prefix_limit};

use crate::once::is_among;
use storage_bytes::layout::PrefixTable;
use storage_rows::prefixes::{index_at, mark_at, parent_at, size_at, through};
use units::{CONTENT_LIMIT, LogIndex};

// The storage rules of row k, by the rows before it.
#[tactic(auto, using(crate::proofs::PrefixTurns::right_parent, crate::proofs::PrefixTurns::right_rest))]
fn prefix_right(prefixes: &PrefixTable, k: usize) -> bool
    requires { k < prefix_limit }
    ensures { result ≡ prefix_right (rows_of_prefixes prefixes.now k) (prefix_row prefixes.now k) }
{
    let p = parent_at(prefixes, k);
    if k < p.0 {
        return false;
    }
    let i = index_at(prefixes, k);
    if i.0 != through(prefixes, p).0 + 1 {
        return false;
    }
    if LogIndex::LAST < i {
        return false;
    }
    if 1 < mark_at(prefixes, k) {
        return false;
    }
    if CONTENT_LIMIT < usize::from(size_at(prefixes, k)) {
        return false;
    }
    !is_among(prefixes, p.0, k)
}

// The storage rules of every one of n rows.
pub fn prefixes_right(prefixes: &PrefixTable, n: usize) -> bool
    requires { n ≤ prefix_limit }
    ensures { result ≡ prefixes_right_after [] (rows_of_prefixes prefixes.now n) }
{
    (0..n).all(|k| prefix_right(prefixes, k))
}
