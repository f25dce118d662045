// Comparison of stored prefixes (the equality of types/prefix.rs). Equal numbers are the same stored prefix, which is the Rust's
// shortcut; of unequal ones term, mark and content at each index decide.
ghost use Rattle.std.specs.Prelude.{◌≡◌, ℕ, ◌≤◌};
ghost use Rattle.storage.specs.Tables.{prefix_row};
ghost use Rattle.log_prefix.specs.Table.{Table};
ghost use Rattle.log_prefix.specs.Comparison.{same_from};

use storage_bytes::layout::PrefixTable;
use storage_rows::prefixes::{content_at, mark_at, parent_at, size_at, term_at};
use units::LogPrefixWitness;

// Whether two stored prefixes are the same. From the last entries back, left at the first byte that differs; they are the same
// where that comes to one prefix that both extend.
pub fn same_prefix(prefixes: &PrefixTable, a: LogPrefixWitness, b: LogPrefixWitness) -> bool
    requires { (n : ℕ) × Table prefixes.now n × (a.0 ≤ n) × (b.0 ≤ n) }
    ensures { result ≡ same_from (prefix_row prefixes.now) a.0 a.0 b.0 }
{
    let mut p = a;
    let mut q = b;
    // each prefix leads to the one that it extends: no index is counted
    'entries: while p != q {
        if p == LogPrefixWitness::EMPTY || q == LogPrefixWitness::EMPTY {
            break;
        }
        let i = p.0 - 1;
        let j = q.0 - 1;
        let size = size_at(prefixes, i);
        if term_at(prefixes, i) != term_at(prefixes, j) || size != size_at(prefixes, j) {
            break;
        }
        if mark_at(prefixes, i) != mark_at(prefixes, j) {
            break;
        }
        let x = content_at(prefixes, i);
        let y = content_at(prefixes, j);
        // both have `size` bytes, since the storage rules allow no row more than 32
        for k in 0..size {
            let at = usize::from(k);
            if x[at] != y[at] {
                break 'entries;
            }
        }
        p = parent_at(prefixes, i);
        q = parent_at(prefixes, j);
    }
    p == q
}
