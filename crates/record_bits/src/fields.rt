// The fields of records, each with all its own faults in document 01's order: its bits are missing, its value is out of
// its limit, it is not above the one before. Each takes the record and a bit: a reader that moves would ask that the bit
// after the field is a usize, and a field asks nothing of its place.
ghost use Rattle.std.specs.Prelude.{◌≡◌, ◌+◌, ◌<◌, ◌≤◌, IfOk, cond};
ghost use Rattle.model.specs.Reading as reading;
ghost use Rattle.record_bits.specs.Answers.{part_of};
ghost use Rattle.record_bits.specs.Limits.{at_most};

use crate::bits::{Fault, field};
use units::{CONTENT_LIMIT, INDEX_LIMIT};

// The greatest index; a count and a length have the same limit.
pub const INDEX_MOST: u64 = INDEX_LIMIT as u64;

// The most bytes of a content.
pub const CONTENT_MOST: u64 = CONTENT_LIMIT as u64;

// The greatest identity of a configuration: every number of 32 bits is one.
pub const IDENTITY_MOST: u64 = 4294967295;

// A field that was read, where it is at most `most`.
pub fn within(n: Result<u64, Fault>, most: u64) -> Result<u64, Fault>
    ensures is { result ≡ at_most most n }
    ensures within { IfOk result (λ v. v ≤ most) }
{
    let v = n?;
    if v <= most {
        Ok(v)
    } else {
        Err(Fault::OutOfLimit)
    }
}

// A field of w bits that is at most `most`.
#[tactic(auto, unfolding(model::specs::Reading::limited))]
pub fn limited(s: &[u8], at: usize, w: usize, most: u64) -> Result<u64, Fault>
    requires { w ≤ 57 }
    ensures reads { reading.limited w most s.now at ≡ part_of result (at + w) }
    ensures within { IfOk result (λ v. v ≤ most) }
{
    within(field(s, at, w), most)
}

// A yes/no takes 1 bit.
#[tactic(auto, unfolding(model::specs::Reading::yes_no))]
pub fn yes_no(s: &[u8], at: usize) -> Result<bool, Fault>
    ensures { reading.yes_no s.now at ≡ part_of result (at + 1) }
{
    Ok(field(s, at, 1)? == 1)
}

// A field that "present" governs: it is zero where absent.
#[tactic(auto, unfolding(model::specs::Reading::governed))]
pub fn governed(s: &[u8], at: usize, present: bool, w: usize, most: u64) -> Result<u64, Fault>
    requires { w ≤ 57 }
    ensures reads { reading.governed present w most s.now at ≡ part_of result (at + w) }
    ensures within { IfOk result (λ v. v ≤ cond present most 0) }
{
    if present {
        limited(s, at, w, most)
    } else {
        limited(s, at, w, 0)
    }
}

// An index, a count or a length takes 10 bits and is at most 256.
pub fn index(s: &[u8], at: usize) -> Result<u64, Fault>
    ensures { reading.index s.now at ≡ part_of result (at + 10) }
{
    limited(s, at, 10, INDEX_MOST)
}

// An entry's index: not zero, and at least `least`, one more than the index before it.
#[tactic(auto, unfolding(model::specs::Reading::entry_index))]
pub fn entry_index(s: &[u8], at: usize, least: u64) -> Result<u64, Fault>
    ensures { reading.entry_index least s.now at ≡ part_of result (at + 10) }
{
    let i = index(s, at)?;
    if i == 0 {
        return Err(Fault::OutOfLimit);
    }
    if least <= i {
        Ok(i)
    } else {
        Err(Fault::NotAbove)
    }
}

// A row's node: at least `least`, one more than the node before it. The same test as an index has, in two lines.
#[tactic(auto, unfolding(model::specs::Reading::row_node))]
pub fn row_node(s: &[u8], at: usize, least: u64) -> Result<u64, Fault>
    ensures reads { reading.row_node least s.now at ≡ part_of result (at + 6) }
    ensures below { IfOk result (λ n. n < 64) }
{
    let n = field(s, at, 6)?;
    if least <= n {
        Ok(n)
    } else {
        Err(Fault::NotAbove)
    }
}
