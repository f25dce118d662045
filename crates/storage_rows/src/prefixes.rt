// The table of prefixes, in the order stored. Row k holds the prefix of number k + 1: the prefix of a smaller number, 0 for the
// empty one, with one entry more.
ghost use Rattle.std.specs.Prelude.{◌≡◌, ◌+◌, ◌*◌, ◌≤◌, ◌<◌, length, refl};
ghost use Rattle.std.proofs.Common.{lit≤};
ghost use Rattle.storage_bytes.specs.declared.layout.TheConstants.{PREFIXES};
ghost use Rattle.storage_bytes.specs.Words.{Word, word_at};
ghost use Rattle.storage_bytes.specs.Layout.{prefix_width, number_width, index_width, term_width, byte_width, prefix_index, prefix_term, prefix_mark, prefix_size};
ghost use Rattle.storage.specs.Writes.{prefix_appended};
ghost use Rattle.storage.specs.Tables.{prefix_row};
ghost use Rattle.storage.specs.Values.{Index};
ghost use Rattle.storage.specs.Head.{prefixes_held};
ghost use Rattle.storage.proofs.RowLaws.{prefix_length};
ghost use Rattle.storage_rows.specs.Prefixes.{row_bytes, row_appended};
ghost use Rattle.model.specs.Sizes.{content_limit, prefix_limit};

use storage::head::{committed, prefix_count, set_prefix_count};
use storage::rows::{Row, set};
use storage::stored::Stored;
use storage_bytes::layout::{
    History, PREFIX_CONTENT, PREFIX_INDEX, PREFIX_MARK, PREFIX_SIZE, PREFIX_TERM, PREFIX_WIDTH,
    PREFIXES, PrefixTable, Region, part,
};
use storage_bytes::words::{Field, put_bytes};
use units::{CONTENT_LIMIT, LogIndex, LogPrefixWitness, Term};

// A prefix to be stored: the one that it extends, and its last entry, whose mark is 1 for a configuration entry and 0 for a portion
// record, and whose content is the first `size` of the 32 bytes. Memory is fixed, and a row is copied whole, as the entry is that it is made of. That entry is no part of it: a `ShownEntry` says where the
// record goes on, which no row has.
#[derive(Clone, Copy)]
pub struct PrefixRow {
    pub parent: LogPrefixWitness,
    pub index: LogIndex,
    pub term: Term,
    pub mark: u8,
    pub size: u8,
    pub content: [u8; CONTENT_LIMIT],
}

impl Row for PrefixRow {
    ghost TABLE = { PREFIXES };

    ghost width = { prefix_width };

    ghost count = { prefix_limit };

    ghost bytes = { row_bytes };

    ghost whole = { λ x. length x.content ≡ content_limit };

    ghost inside = { lit≤ tt };

    ghost filled = { refl };

    ghost wide = { λ x long. prefix_length x.parent.0 x.index.0 x.term.0 x.mark x.size x.content long };

    const TABLE: Region = PREFIXES;

    #[tactic(auto, using(storage_bytes::proofs::WordLaws::put_join, storage_bytes::proofs::WordLaws::word_bytes_length), unfolding(storage::specs::Writes::prefix_bytes))]
    fn put(self, prefixes: &mut [u8], k: usize) {
        let o = k * PREFIX_WIDTH;
        self.parent.write(prefixes, o);
        self.index.write(prefixes, o + PREFIX_INDEX);
        self.term.write(prefixes, o + PREFIX_TERM);
        self.mark.write(prefixes, o + PREFIX_MARK);
        self.size.write(prefixes, o + PREFIX_SIZE);
        put_bytes(prefixes, o + PREFIX_CONTENT, &self.content);
    }
}

// Fields alone, each by its name: a search reads two of them of every row, and a row has 42 bytes. One generic function would take a
// field's place and type at each call, where its name stands now.
pub fn parent_at(prefixes: &PrefixTable, k: usize) -> LogPrefixWitness
    requires { k < prefix_limit }
    ensures { Word prefixes.now (k * prefix_width) number_width result.0 }
{
    LogPrefixWitness::read(prefixes, k * PREFIX_WIDTH)
}

pub fn index_at(prefixes: &PrefixTable, k: usize) -> LogIndex
    requires { k < prefix_limit }
    ensures { Word prefixes.now (k * prefix_width + prefix_index) index_width result.0 }
{
    LogIndex::read(prefixes, k * PREFIX_WIDTH + PREFIX_INDEX)
}

pub fn term_at(prefixes: &PrefixTable, k: usize) -> Term
    requires { k < prefix_limit }
    ensures { result.0 ≡ word_at prefixes.now (k * prefix_width + prefix_term) term_width }
{
    Term::read(prefixes, k * PREFIX_WIDTH + PREFIX_TERM)
}

pub fn mark_at(prefixes: &PrefixTable, k: usize) -> u8
    requires { k < prefix_limit }
    ensures { Word prefixes.now (k * prefix_width + prefix_mark) byte_width result }
{
    u8::read(prefixes, k * PREFIX_WIDTH + PREFIX_MARK)
}

pub fn size_at(prefixes: &PrefixTable, k: usize) -> u8
    requires { k < prefix_limit }
    ensures { Word prefixes.now (k * prefix_width + prefix_size) byte_width result }
{
    u8::read(prefixes, k * PREFIX_WIDTH + PREFIX_SIZE)
}

// The content of its last entry. A row that breaks the storage rules may say more than its 32 bytes.
#[tactic(auto, using(storage_bytes::proofs::ByteTurns::part_bytes))]
pub fn content_at(prefixes: &PrefixTable, k: usize) -> &[u8]
    requires { k < prefix_limit }
    ensures { result.now ≡ (prefix_row prefixes.now k).content }
{
    let n = usize::from(size_at(prefixes, k)).min(CONTENT_LIMIT);
    part(prefixes, k * PREFIX_WIDTH + PREFIX_CONTENT, n)
}

// The index of a prefix's last entry; the empty one has zero.
#[tactic(auto, unfolding(storage::specs::Values::number_index))]
pub fn through(prefixes: &PrefixTable, p: LogPrefixWitness) -> LogIndex
    requires { p.0 ≤ prefix_limit }
    ensures { Index prefixes.now p.0 result.0 }
{
    if p == LogPrefixWitness::EMPTY {
        return LogIndex::ZERO;
    }
    index_at(prefixes, p.0 - 1)
}

// One more prefix.
#[tactic(auto, unfolding(storage::specs::Writes::prefix_appended))]
pub fn append(history: &mut History, row: PrefixRow)
    requires { prefixes_held history.old < prefix_limit }
    ensures { history.new ≡ row_appended history.old row }
{
    let n = prefix_count(history);
    set(history, n, row);
    set_prefix_count(history, n + 1);
}
