// Bits of a record, most significant first: the number in any 57 or fewer of them, and a field that may be missing.
ghost use Rattle.std.specs.Prelude.{◌≡◌, ◌+◌, ◌*◌, ◌^◌, ◌<◌, ◌≤◌, IfOk, length, leb};
ghost use Rattle.model.specs.Reading as reading;
ghost use Rattle.model.specs.Refusal as refusal;
ghost use Rattle.record_bits.specs.Answers.{refusal_of, part_of};
ghost use Rattle.record_bits.specs.declared.bits.Fault.{Fault};

use units::OutOfLimit;

// Why a record is unreadable.
#[derive(Clone, Copy, PartialEq, Eq)]
pub enum Fault {
    // The kind is none of 1 to 6.
    UnknownKind,
    // A field's bits are missing.
    BitsMissing,
    // A bit is set in the filling, or there is a further byte.
    Filling,
    // A field is out of its limit, an entry index is zero, or a field is not zero where absent.
    OutOfLimit,
    // An entry index or a row's node is not above the one before it.
    NotAbove,
}

// Document 01's number of a fault. Written out, so that the order of the variants means nothing.
impl From<Fault> for u8 {
    ghost from_gives = { λ f result. result ≡ refusal.number (refusal_of f) };

    fn from(f: Fault) -> u8 {
        match f {
            Fault::UnknownKind => 1,
            Fault::BitsMissing => 2,
            Fault::Filling => 3,
            Fault::OutOfLimit => 4,
            Fault::NotAbove => 5,
        }
    }
}

// A number above its unit's limit is a field out of its limit.
impl From<OutOfLimit> for Fault {
    ghost from_gives = { λ _ f. f ≡ Fault.OutOfLimit };

    fn from(_e: OutOfLimit) -> Fault {
        Fault::OutOfLimit
    }
}

// The number in the w bits from bit `at` on: the bytes that hold them make one word, and what stands before and after the bits is
// cut off. With the bits before them in their first byte, 57 bits are the most that a word always holds. The width is no const parameter:
// that of the filling is computed.
pub fn bits_at(s: &[u8], at: usize, w: usize) -> u64
    requires { (w ≤ 57) × (at + w ≤ 8 * length s.now) }
    ensures { result ≡ reading.field_at s.now at w }
{
    let first = at / 8;
    let end = at % 8 + w;
    let n = (end + 7) / 8;
    let mut v: u64 = 0;
    for byte in &s[first..first + n] {
        v = (v << 8) + u64::from(*byte);
    }
    (v >> (8 * n - end)) % (1 << w)
}

// Whether the record has the w bits from bit `at` on. Counted in bytes, so that no sum wraps.
pub fn holds(s: &[u8], at: usize, w: usize) -> bool
    requires { w ≤ 256 }
    ensures { result ≡ leb (at + w) (8 * length s.now) }
{
    at / 8 + (at % 8 + w + 7) / 8 <= s.len()
}

// A field of w bits: its number, or that its bits are missing.
#[tactic(auto, using(crate::proofs::Widths::field_lt), unfolding(model::specs::Reading::field))]
pub fn field(s: &[u8], at: usize, w: usize) -> Result<u64, Fault>
    requires { w ≤ 57 }
    ensures reads { reading.field w s.now at ≡ part_of result (at + w) }
    ensures below { IfOk result (λ v. v < 2 ^ w) }
{
    if holds(s, at, w) {
        Ok(bits_at(s, at, w))
    } else {
        Err(Fault::BitsMissing)
    }
}

// Whether the fields, which end before bit `at`, end in the last byte, and its other bits are zero.
#[tactic(auto, using(crate::proofs::Readers::filled_none, crate::proofs::Readers::filled_further, crate::proofs::Readers::filled_rest))]
pub fn filled(s: &[u8], at: usize) -> bool
    ensures { result ≡ reading.filled s.now at }
{
    let whole = at / 8;
    let used = at % 8;
    if s.len() <= whole {
        return true;
    }
    if used == 0 {
        return false;
    }
    if s.len() > whole + 1 {
        return false;
    }
    bits_at(s, at, 8 - used) == 0
}
