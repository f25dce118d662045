// The numbers of the writer's answer: its refusal or 0, and how many bytes it wrote. They are numbers because callers in C
// read them.
ghost use Rattle.std.specs.Prelude.{◌≡◌};
ghost use Rattle.record_writing.specs.Writing.{number_of, reply_of};

use crate::write::Refusal;

#[repr(C)]
#[derive(Clone, Copy)]
pub struct WriteReply {
    // 1 to 5 or 13, or 0 where the record is written.
    pub refusal: u8,
    // How many bytes were written; 0 where it is refused.
    pub length: usize,
}

// 13 is the writer's own: the buffer is too short.
impl From<Refusal> for u8 {
    ghost from_gives = { λ f result. result ≡ number_of f };

    fn from(f: Refusal) -> u8 {
        match f {
            Refusal::Unreadable(f) => u8::from(f),
            Refusal::BufferTooShort => 13,
        }
    }
}

impl From<Result<usize, Refusal>> for WriteReply {
    ghost from_gives = { λ a result. result ≡ reply_of number_of a };

    fn from(a: Result<usize, Refusal>) -> WriteReply {
        match a {
            Ok(length) => WriteReply { refusal: 0, length },
            Err(f) => WriteReply {
                refusal: u8::from(f),
                length: 0,
            },
        }
    }
}
