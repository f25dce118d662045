// The table of findings, in the order found.
ghost use Rattle.std.specs.Prelude.{◌≡◌, ◌+◌, ◌*◌, ◌≤◌, ◌<◌, ◌++◌, refl};
ghost use Rattle.std.proofs.Common.{lit≤};
ghost use Rattle.model.specs.History.{Finding};
ghost use Rattle.model.specs.Sizes.{finding_limit};
ghost use Rattle.storage.specs.Tables.{finding_row};
ghost use Rattle.storage.proofs.RowLaws.{finding_length};
ghost use Rattle.storage_rows.specs.Rows.{finding_value};
ghost use Rattle.storage_bytes.specs.declared.layout.TheConstants.{FINDINGS};
ghost use Rattle.storage_bytes.specs.Layout.{finding_width};
ghost use Rattle.storage.specs.Writes.{finding_bytes};

use storage::rows::{Row, StoredRow};
use storage_bytes::layout::{
    FINDING_INDEX, FINDING_NODE, FINDING_TERM, FINDING_WIDTH, FINDINGS, Region,
};
use storage_bytes::words::{Field, put8};
use units::{LogIndex, NodeId, Term};

// A leader shortened or rewrote its own log within a term.
pub const LG_01: usize = 1;

// Two logs differ under one index and term.
pub const LG_03: usize = 3;

// Two committed prefixes differ.
pub const LG_04: usize = 4;

// A leader was elected without a committed entry.
pub const LG_05: usize = 5;

// Findings are in the order of their fields. The name is a number and no enum: a row that breaks the storage rules holds any byte
// there. It is a `usize`, as callers in C read it.
#[derive(Clone, Copy, PartialEq, Eq, PartialOrd, Ord)]
pub struct Found {
    pub name: usize,
    pub node: NodeId,
    pub term: Term,
    pub index: LogIndex,
}

impl Row for Found {
    ghost TABLE = { FINDINGS };

    ghost width = { finding_width };

    ghost count = { finding_limit };

    ghost bytes = { λ x. finding_bytes (finding_value x) };

    ghost whole = { λ x. Unit {0} };

    ghost inside = { lit≤ tt };

    ghost filled = { refl };

    ghost wide = { λ x _. finding_length (finding_value x) };

    const TABLE: Region = FINDINGS;

    #[tactic(auto, using(storage_bytes::proofs::WordLaws::put_join, storage_bytes::proofs::WordLaws::word_bytes_length), unfolding(storage::specs::Writes::finding_bytes))]
    fn put(self, findings: &mut [u8], k: usize) {
        let o = k * FINDING_WIDTH;
        put8(findings, o, self.name);
        self.node.write(findings, o + FINDING_NODE);
        self.index.write(findings, o + FINDING_INDEX);
        self.term.write(findings, o + FINDING_TERM);
    }
}

impl StoredRow for Found {
    ghost Value = { Finding };

    ghost value = { finding_value };

    ghost stored = { finding_row };

    fn at(findings: &[u8], k: usize) -> Found {
        let o = k * FINDING_WIDTH;
        Found {
            name: usize::from(u8::read(findings, o)),
            node: NodeId::read(findings, o + FINDING_NODE),
            index: LogIndex::read(findings, o + FINDING_INDEX),
            term: Term::read(findings, o + FINDING_TERM),
        }
    }
}
