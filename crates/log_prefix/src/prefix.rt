// Prefixes extended (types/prefix.rs): a prefix is a stored row, which extends the prefix of a smaller number by one entry.
ghost use Rattle.std.specs.Prelude.{◌≡◌, ◌+◌};
ghost use Rattle.log_prefix.specs.Table.{entry_value};
ghost use Rattle.log_prefix.specs.Prefix.{witness};
ghost use Rattle.log_prefix.specs.Extension.{Making, appended, Extending, extension, extension_bytes};

use crate::table::Prefixes;
use record_entries::walk::ShownEntry;
use storage_bytes::layout::{History, PREFIXES};
use storage_rows::prefixes::{PrefixRow, append, through};
use units::LogPrefixWitness;

// What the step that lengthens a prefix comes to: whoever takes it counts what it made.
#[derive(Clone, Copy)]
pub enum Extended {
    // The extension was stored already.
    Found(LogPrefixWitness),
    // It is the new row.
    Made(LogPrefixWitness),
    // The entry is not of the index after the prefix's last.
    NotNext,
}

// The extension of the prefix by the entry is made: the next row. The count goes along with whoever lengthens prefixes; `append` alone
// reads it in the head, where it writes it.
#[tactic(auto, using(crate::proofs::Written::row_made))]
fn make(history: &mut History, count: usize, p: LogPrefixWitness, e: ShownEntry) -> LogPrefixWitness
    requires { Making history.old count e }
    ensures { (result ≡ witness (count + 1)) × (history.new ≡ appended history.old p.0 e.index.0 (entry_value e)) }
{
    let content = e.content;
    let row = PrefixRow {
        parent: p,
        index: e.index,
        term: e.term,
        mark: e.mark(),
        size: e.length,
        content,
    };
    append(history, row);
    LogPrefixWitness(count + 1)
}

// The one step that lengthens a prefix: it takes the entry of the index after its last, and no other. It tells whether the extension
// is found or made.
pub fn extend(history: &mut History, count: usize, p: LogPrefixWitness, e: ShownEntry) -> Extended
    requires { Extending history.old count p.0 e }
    ensures { (result ≡ extension history.old count p.0 e) × (history.new ≡ extension_bytes history.old count p.0 e) }
{
    let rows = PREFIXES.array(history);
    if e.index.0 != through(rows, p).0 + 1 {
        return Extended::NotNext;
    }
    let prefixes = Prefixes { rows, count };
    let Some(prefix) = prefixes.find_extension(p, e) else {
        return Extended::Made(make(history, count, p, e));
    };
    Extended::Found(prefix)
}
