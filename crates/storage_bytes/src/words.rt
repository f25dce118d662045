// Fields: numbers in bytes, high byte first, at an offset, read and written; runs of bytes written and moved.
ghost use Rattle.std.specs.Prelude.{◌≡◌, ◌+◌, ◌≤◌, ◌<◌, ◌^◌, ℕ, length};
ghost use Rattle.storage_bytes.specs.Words.{Word, word_bytes, bytes_at, put_bytes};

use units::{LogIndex, LogPrefixWitness, NodeId, Term};

// What a field of a row holds: a number, in a fixed count of bytes. That it lies within its table is asked: no type has both its offset and
// the table's length.
pub trait Field: Copy {
    ghost width: { ℕ };

    ghost number: { Self → ℕ };

    fn read(t: &[u8], o: usize) -> Self
        requires { o + width ≤ length t.now }
        ensures { Word t.now o width (number result) };

    // Of a number too large for its bytes the low ones are written.
    fn write(self, t: &mut [u8], o: usize)
        requires { o + width ≤ length t.old }
        ensures { t.new ≡ put_bytes t.old o (word_bytes width (number self)) };
}

impl Field for u8 {
    ghost width = { 1 };

    ghost number = { λ x. x };

    #[tactic(auto, using(crate::proofs::WordLaws::word_one))]
    fn read(t: &[u8], o: usize) -> u8 {
        t[o]
    }

    #[tactic(auto, unfolding(crate::specs::Words::put_bytes, crate::specs::Words::word_bytes))]
    fn write(self, t: &mut [u8], o: usize) {
        t[o] = self;
    }
}

// Those of two and four bytes differ by their size alone, but std has no trait of `to_be_bytes`.
impl Field for u16 {
    ghost width = { 2 };

    ghost number = { λ x. x };

    #[tactic(auto, using(crate::proofs::WordLaws::word_two))]
    fn read(t: &[u8], o: usize) -> u16 {
        u16::from_be_bytes([t[o], t[o + 1]])
    }

    #[tactic(auto, using(crate::proofs::ByteTurns::slice_written, crate::proofs::ByteTurns::bytes_two, crate::proofs::WordLaws::word_bytes_length))]
    fn write(self, t: &mut [u8], o: usize) {
        t[o..o + 2].copy_from_slice(&self.to_be_bytes());
    }
}

impl Field for u32 {
    ghost width = { 4 };

    ghost number = { λ x. x };

    #[tactic(auto, using(crate::proofs::WordLaws::word_four))]
    fn read(t: &[u8], o: usize) -> u32 {
        u32::from_be_bytes([t[o], t[o + 1], t[o + 2], t[o + 3]])
    }

    #[tactic(auto, using(crate::proofs::ByteTurns::slice_written, crate::proofs::ByteTurns::bytes_four, crate::proofs::WordLaws::word_bytes_length))]
    fn write(self, t: &mut [u8], o: usize) {
        t[o..o + 4].copy_from_slice(&self.to_be_bytes());
    }
}

// A number with a type of its own is a field as its number is. One impl for the four would want a trait of conversions, and each of
// them an impl of that with two functions, as it has now.
impl Field for NodeId {
    ghost width = { 1 };

    ghost number = { λ x. x.0 };

    fn read(t: &[u8], o: usize) -> NodeId {
        NodeId(u8::read(t, o))
    }

    fn write(self, t: &mut [u8], o: usize) {
        self.0.write(t, o);
    }
}

impl Field for Term {
    ghost width = { 4 };

    ghost number = { λ x. x.0 };

    fn read(t: &[u8], o: usize) -> Term {
        Term(u32::read(t, o))
    }

    fn write(self, t: &mut [u8], o: usize) {
        self.0.write(t, o);
    }
}

impl Field for LogIndex {
    ghost width = { 2 };

    ghost number = { λ x. x.0 };

    fn read(t: &[u8], o: usize) -> LogIndex {
        LogIndex(get16(t, o))
    }

    fn write(self, t: &mut [u8], o: usize) {
        put16(t, o, self.0);
    }
}

impl Field for LogPrefixWitness {
    ghost width = { 2 };

    ghost number = { λ x. x.0 };

    fn read(t: &[u8], o: usize) -> LogPrefixWitness {
        LogPrefixWitness(get16(t, o))
    }

    fn write(self, t: &mut [u8], o: usize) {
        put16(t, o, self.0);
    }
}

// A plain number, as a count, has no type of its own width. One function for its two widths would take the width at each call, where its
// name stands now.
pub fn get16(t: &[u8], o: usize) -> usize
    requires { o + 2 ≤ length t.now }
    ensures { Word t.now o 2 result }
{
    usize::from(u16::read(t, o))
}

#[tactic(auto, using(crate::proofs::ByteTurns::low_byte))]
pub fn put8(t: &mut [u8], o: usize, v: usize)
    requires { o + 1 ≤ length t.old }
    ensures { t.new ≡ put_bytes t.old o (word_bytes 1 v) }
{
    ((v % 256) as u8).write(t, o);
}

#[tactic(auto, using(crate::proofs::ByteTurns::low_bytes))]
pub fn put16(t: &mut [u8], o: usize, v: usize)
    requires { o + 2 ≤ length t.old }
    ensures { t.new ≡ put_bytes t.old o (word_bytes 2 v) }
{
    ((v % 65536) as u16).write(t, o);
}

// All bytes of vs, from o on.
#[tactic(auto, using(crate::proofs::ByteTurns::slice_written))]
pub fn put_bytes(t: &mut [u8], o: usize, vs: &[u8])
    requires { o + length vs.now ≤ length t.old }
    ensures { t.new ≡ put_bytes t.old o vs.now }
{
    t[o..o + vs.len()].copy_from_slice(vs);
}

// The n bytes at a moved up by w.
#[tactic(auto, using(crate::proofs::ByteTurns::slice_moved))]
pub fn move_up(t: &mut [u8], a: usize, n: usize, w: usize)
    requires { a + w + n ≤ length t.old }
    ensures { t.new ≡ put_bytes t.old (a + w) (bytes_at t.old a n) }
{
    t.copy_within(a..a + n, a + w);
}
