// The writer: a list of numbers becomes a record's bytes. All numbers are looked at before the first byte is written.
ghost use Rattle.std.specs.Prelude.{◌≡◌, ◌≤◌, IfOk, length};
ghost use Rattle.record_writing.specs.Writing.{Writes};
ghost use Rattle.record_writing.specs.declared.write.Refusal.{Refusal};

use crate::put::{bits, put_record};
use crate::scan::scan_record;
use record_bits::bits::Fault;

// Why nothing was written.
#[derive(Clone, Copy, PartialEq, Eq)]
pub enum Refusal {
    // The numbers are no record.
    Unreadable(Fault),
    // The buffer is too short for the record.
    BufferTooShort,
}

impl From<Fault> for Refusal {
    ghost from_gives = { λ f r. r ≡ Refusal.Unreadable f };

    fn from(f: Fault) -> Refusal {
        Refusal::Unreadable(f)
    }
}

// The bytes of a record into the buffer, from its start: how many there are. Where it is refused, the buffer is as it was.
pub fn write(fields: &[u64], buffer: &mut [u8]) -> Result<usize, Refusal>
    ensures writes { Writes fields.now buffer.old result buffer.new }
    ensures within { IfOk result (λ n. n ≤ length buffer.old) }
{
    scan_record(fields)?;
    let length = (bits(fields) + 7) / 8;
    if buffer.len() < length {
        return Err(Refusal::BufferTooShort);
    }
    put_record(buffer, fields);
    Ok(length)
}
