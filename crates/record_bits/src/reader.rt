// The record reader: it borrows the record, remembers its next bit, and takes one field after another.
ghost use Rattle.std.specs.Prelude.{◌≡◌, ◌+◌, ◌^◌, ◌≤◌, ◌<◌, IfOk, cond};
ghost use Rattle.model.specs.Reading as reading;
ghost use Rattle.record_bits.specs.Answers.{part_of, unit_part};

use crate::bits::{Fault, field};
use crate::fields::{governed, limited, yes_no};
use units::{LogIndex, NodeId, Term};

// A record, and the next bit to read.
#[derive(Clone, Copy)]
pub struct RecordReader<'a> {
    pub bytes: &'a [u8],
    pub next: usize,
}

impl<'a> RecordReader<'a> {
    // A reader of a record from bit `at` on.
    pub fn new(bytes: &'a [u8], at: usize) -> RecordReader<'a>
        ensures { (result.bytes ≡ bytes.entry) × (result.next ≡ at) }
    {
        RecordReader { bytes, next: at }
    }

    // The next w bits are passed: where they begin.
    fn pass(&mut self, w: usize) -> usize
        requires { self.old.next + w < 2 ^ 64 }
        ensures at { result ≡ self.old.next }
        ensures bytes { self.new.bytes ≡ self.old.bytes }
        ensures next { self.new.next ≡ self.old.next + w }
    {
        let at = self.next;
        self.next = at + w;
        at
    }

    // The field of the next w bits. The reader is moved past them also where they are missing.
    pub fn take(&mut self, w: usize) -> Result<u64, Fault>
        requires { (w ≤ 57) × (self.old.next + w < 2 ^ 64) }
        ensures reads { reading.field w self.old.bytes.now self.old.next ≡ part_of result (self.old.next + w) }
        ensures below { IfOk result (λ v. v < 2 ^ w) }
        ensures bytes { self.new.bytes ≡ self.old.bytes }
        ensures next { self.new.next ≡ self.old.next + w }
    {
        let at = self.pass(w);
        field(self.bytes, at, w)
    }

    // The next field of w bits, which is at most `most`.
    pub fn take_limited(&mut self, w: usize, most: u64) -> Result<u64, Fault>
        requires { (w ≤ 57) × (self.old.next + w < 2 ^ 64) }
        ensures reads { reading.limited w most self.old.bytes.now self.old.next ≡ part_of result (self.old.next + w) }
        ensures within { IfOk result (λ v. v ≤ most) }
        ensures bytes { self.new.bytes ≡ self.old.bytes }
        ensures next { self.new.next ≡ self.old.next + w }
    {
        let at = self.pass(w);
        limited(self.bytes, at, w, most)
    }

    // The next field of w bits, which `present` governs: at most `most`, and zero where absent.
    pub fn take_governed(&mut self, present: bool, w: usize, most: u64) -> Result<u64, Fault>
        requires { (w ≤ 57) × (self.old.next + w < 2 ^ 64) }
        ensures reads { reading.governed present w most self.old.bytes.now self.old.next ≡ part_of result (self.old.next + w) }
        ensures within { IfOk result (λ v. v ≤ cond present most 0) }
        ensures bytes { self.new.bytes ≡ self.old.bytes }
        ensures next { self.new.next ≡ self.old.next + w }
    {
        let at = self.pass(w);
        governed(self.bytes, at, present, w, most)
    }

    // A yes/no: the next bit.
    pub fn take_yes_no(&mut self) -> Result<bool, Fault>
        requires { self.old.next + 1 < 2 ^ 64 }
        ensures reads { reading.yes_no self.old.bytes.now self.old.next ≡ part_of result (self.old.next + 1) }
        ensures bytes { self.new.bytes ≡ self.old.bytes }
        ensures next { self.new.next ≡ self.old.next + 1 }
    {
        let at = self.pass(1);
        yes_no(self.bytes, at)
    }

    // A node takes 6 bits.
    pub fn take_node(&mut self) -> Result<NodeId, Fault>
        requires { self.old.next + 6 < 2 ^ 64 }
        ensures reads { reading.node self.old.bytes.now self.old.next ≡ unit_part (λ n. n.0) result (self.old.next + 6) }
        ensures within { IfOk result (λ n. n.0 < 64) }
        ensures bytes { self.new.bytes ≡ self.old.bytes }
        ensures next { self.new.next ≡ self.old.next + 6 }
    {
        let n = self.take(6)?;
        Ok(NodeId::try_from(n as u8)?)
    }

    // An index takes 10 bits.
    #[tactic(auto, unfolding(model::specs::Reading::limited))]
    pub fn take_index(&mut self) -> Result<LogIndex, Fault>
        requires { self.old.next + 10 < 2 ^ 64 }
        ensures reads { reading.index self.old.bytes.now self.old.next ≡ unit_part (λ i. i.0) result (self.old.next + 10) }
        ensures within { IfOk result (λ i. i.0 ≤ 256) }
        ensures bytes { self.new.bytes ≡ self.old.bytes }
        ensures next { self.new.next ≡ self.old.next + 10 }
    {
        let i = self.take(10)?;
        Ok(LogIndex::try_from(i as usize)?)
    }

    // A term takes 32 bits.
    pub fn take_term(&mut self) -> Result<Term, Fault>
        requires { self.old.next + 32 < 2 ^ 64 }
        ensures reads { reading.term self.old.bytes.now self.old.next ≡ unit_part (λ t. t.0) result (self.old.next + 32) }
        ensures within { IfOk result (λ t. t.0 < 2 ^ 32) }
        ensures bytes { self.new.bytes ≡ self.old.bytes }
        ensures next { self.new.next ≡ self.old.next + 32 }
    {
        let t = self.take(32)?;
        Ok(Term::from(t as u32))
    }
}
