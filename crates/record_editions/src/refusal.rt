// Why a record is not converted, and the numbers of the converter's answer.
ghost use Rattle.std.specs.Prelude.{◌≡◌};
ghost use Rattle.record_writing.specs.Writing.{reply_of};
ghost use Rattle.record_editions.specs.Numbers.{number_of};
ghost use Rattle.record_editions.specs.declared.refusal.Refusal.{Refusal};

use record_bits::bits::Fault;
use record_writing::reply::WriteReply;

// Nothing was written.
#[derive(Clone, Copy, PartialEq, Eq)]
pub enum Refusal {
    // The number is no edition's.
    Edition,
    // The bytes are no record.
    Unreadable(Fault),
    // An entry is a configuration entry, which kind 1 cannot show.
    Configured,
    // The buffer is too short for the record.
    BufferTooShort,
}

impl From<Fault> for Refusal {
    ghost from_gives = { λ f r. r ≡ Refusal.Unreadable f };

    fn from(f: Fault) -> Refusal {
        Refusal::Unreadable(f)
    }
}

impl From<Refusal> for u8 {
    ghost from_gives = { λ f result. result ≡ number_of f };

    fn from(f: Refusal) -> u8 {
        match f {
            Refusal::Edition => 4,
            Refusal::Unreadable(f) => u8::from(f),
            Refusal::Configured => 16,
            Refusal::BufferTooShort => 13,
        }
    }
}

// The refusal or 0, and how many bytes were written.
pub fn write_reply(a: Result<usize, Refusal>) -> WriteReply
    ensures { result ≡ reply_of number_of a }
{
    match a {
        Ok(length) => WriteReply { refusal: 0, length },
        Err(f) => WriteReply {
            refusal: u8::from(f),
            length: 0,
        },
    }
}
