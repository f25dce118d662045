// The table of commit terms, those of indexes 1, 2, ... Every number of 32 bits is one, so it has no storage rule but its count.
ghost use Rattle.std.specs.Prelude.{◌≡◌, ◌+◌, ◌-◌, ◌*◌, ◌≤◌, ◌<◌, refl};
ghost use Rattle.std.proofs.Common.{lit≤};
ghost use Rattle.storage.specs.Tables.{term_row};
ghost use Rattle.storage_bytes.proofs.WordLaws.{word_bytes_length};
ghost use Rattle.storage_bytes.specs.declared.layout.TheConstants.{TERMS};
ghost use Rattle.storage_bytes.specs.Words.{word_bytes};
ghost use Rattle.storage_bytes.specs.Layout.{term_width};
ghost use Rattle.model.specs.Sizes.{index_limit};

use storage::rows::Row;
use storage_bytes::layout::{Region, TERM_WIDTH, TERMS, Terms};
use storage_bytes::words::Field;
use units::{LogIndex, Term};

// A term as a row of the table.
#[derive(Clone, Copy)]
pub struct CommitTerm(pub Term);

impl Row for CommitTerm {
    ghost TABLE = { TERMS };

    ghost width = { term_width };

    ghost count = { index_limit };

    ghost bytes = { λ x. word_bytes term_width x.0.0 };

    ghost whole = { λ x. Unit {0} };

    ghost inside = { lit≤ tt };

    ghost filled = { refl };

    ghost wide = { λ x _. word_bytes_length term_width x.0.0 };

    const TABLE: Region = TERMS;

    fn put(self, terms: &mut [u8], k: usize) {
        self.0.write(terms, k * TERM_WIDTH);
    }
}

// The term of an index.
pub fn term_of(terms: &Terms, index: LogIndex) -> Term
    requires { (1 ≤ index.0) × (index.0 ≤ index_limit) }
    ensures { result.0 ≡ term_row terms.now (index.0 - 1) }
{
    Term::read(terms, (index.0 - 1) * TERM_WIDTH)
}
