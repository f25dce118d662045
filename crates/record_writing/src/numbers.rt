// The fields of a record as numbers, each with all its own faults: the list has ended, its value is out of its limit, it is
// not above the one before it. Each takes the list and a place in it.
ghost use Rattle.std.specs.Prelude.{◌≡◌, ◌+◌, ◌<◌, ◌≤◌, ◌^◌, IfOk, length};
ghost use Rattle.record_bits.specs.Answers.{part_of};
ghost use Rattle.record_writing.specs.Given as given;

use record_bits::bits::Fault;
use record_bits::fields::{INDEX_MOST, within};

// The number for a field of w bits.
#[tactic(auto, unfolding(crate::specs::Given::number))]
pub fn number(fields: &[u64], at: usize, w: usize) -> Result<u64, Fault>
    requires { w ≤ 32 }
    ensures reads { given.number w fields.now at ≡ part_of result (at + 1) }
    ensures below { IfOk result (λ v. (v < 2 ^ w) × (at < length fields.now)) }
{
    if at >= fields.len() {
        return Err(Fault::BitsMissing);
    }
    let v = fields[at];
    if v < 1 << w {
        Ok(v)
    } else {
        Err(Fault::OutOfLimit)
    }
}

// A number for w bits that is at most `most`.
#[tactic(auto, unfolding(crate::specs::Format::limited))]
pub fn limited(fields: &[u64], at: usize, w: usize, most: u64) -> Result<u64, Fault>
    requires { w ≤ 32 }
    ensures reads { given.limited_number w most fields.now at ≡ part_of result (at + 1) }
    ensures within { IfOk result (λ v. (v ≤ most) × (at < length fields.now)) }
{
    let v = number(fields, at, w)?;
    if v <= most {
        Ok(v)
    } else {
        Err(Fault::OutOfLimit)
    }
}

// A yes/no is 1 or 0.
#[tactic(auto, unfolding(crate::specs::Format::yes_no))]
pub fn yes_no(fields: &[u64], at: usize) -> Result<bool, Fault>
    ensures reads { given.yes_no_number fields.now at ≡ part_of result (at + 1) }
    ensures within { IfOk result (λ v. at < length fields.now) }
{
    Ok(number(fields, at, 1)? == 1)
}

// A number that "present" governs: it is zero where absent.
#[tactic(auto, unfolding(crate::specs::Format::governed))]
pub fn governed(fields: &[u64], at: usize, present: bool, w: usize, most: u64) -> Result<u64, Fault>
    requires { w ≤ 32 }
    ensures reads { given.governed_number present w most fields.now at ≡ part_of result (at + 1) }
    ensures within { IfOk result (λ v. at < length fields.now) }
{
    if present {
        limited(fields, at, w, most)
    } else {
        limited(fields, at, w, 0)
    }
}

// An index, a count or a length is at most 256.
pub fn index(fields: &[u64], at: usize) -> Result<u64, Fault>
    ensures reads { given.limited_number 10 256 fields.now at ≡ part_of result (at + 1) }
    ensures within { IfOk result (λ v. (v ≤ 256) × (at < length fields.now)) }
{
    limited(fields, at, 10, INDEX_MOST)
}

// An entry's index: not zero, and at least `least`, one more than the index before it.
#[tactic(auto, unfolding(crate::specs::Format::entry_index))]
pub fn entry_index(fields: &[u64], at: usize, least: u64) -> Result<u64, Fault>
    ensures reads { given.entry_index_number least fields.now at ≡ part_of result (at + 1) }
    ensures within { IfOk result (λ v. (v ≤ 256) × (at < length fields.now)) }
{
    let i = index(fields, at)?;
    if i == 0 {
        return Err(Fault::OutOfLimit);
    }
    if least <= i {
        Ok(i)
    } else {
        Err(Fault::NotAbove)
    }
}

// A row's node: at least `least`, one more than the node before it.
#[tactic(auto, unfolding(crate::specs::Format::row_node))]
pub fn row_node(fields: &[u64], at: usize, least: u64) -> Result<u64, Fault>
    ensures reads { given.row_node_number least fields.now at ≡ part_of result (at + 1) }
    ensures within { IfOk result (λ n. (n < 64) × (at < length fields.now)) }
{
    let n = number(fields, at, 6)?;
    if least <= n {
        Ok(n)
    } else {
        Err(Fault::NotAbove)
    }
}
