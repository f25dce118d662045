// The stored prefixes as they are lent to a search.
ghost use Rattle.std.specs.Prelude.{◌≡◌, ◌≤◌};
ghost use Rattle.storage.specs.Tables.{prefixes_part};
ghost use Rattle.storage.specs.Head.{prefixes_held};
ghost use Rattle.model.specs.Sizes.{prefix_limit};

use storage::head::prefix_count;
use storage_bytes::layout::{History, PREFIXES, PrefixTable};

// The table of prefixes, and how many it holds. That they keep the storage rules is asked where it is needed: a search asks less. So is
// that a number is a stored prefix's: it is so of one history.
#[derive(Clone, Copy)]
pub struct Prefixes<'a> {
    pub rows: &'a PrefixTable,
    pub count: usize,
    ghost sized: { count ≤ prefix_limit },
}

impl<'a> Prefixes<'a> {
    // The history's own.
    pub fn of(history: &'a History) -> Prefixes<'a>
        requires { prefixes_held history.now ≤ prefix_limit }
        ensures { (result.rows.now ≡ prefixes_part history.now) × (result.count ≡ prefixes_held history.now) }
    {
        Prefixes {
            rows: PREFIXES.array(history),
            count: prefix_count(history),
        }
    }
}
