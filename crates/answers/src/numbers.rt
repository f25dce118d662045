// Document 01's numbers for an answer: its refusal or 0, its value and its node. They are numbers because callers in C read them.
ghost use Rattle.std.specs.Prelude.{◌≡◌};
ghost use Rattle.answers.specs.Numbers.{reply_of};

use crate::answer::{Accepted, Refusal};
use units::NodeId;

#[repr(C)]
#[derive(Clone, Copy)]
pub struct Reply {
    // 1 to 10, 12 or 14, or 0 where the record is accepted.
    pub refusal: u8,
    // How many prefixes a view made, the sum of the flags, or the rule that fails; 0 where the record is refused.
    pub value: usize,
    // The node of a failing row, or 0.
    pub node: u8,
}

impl From<Result<Accepted, Refusal>> for Reply {
    ghost from_gives = { λ a result. result ≡ reply_of a };

    fn from(a: Result<Accepted, Refusal>) -> Reply {
        match a {
            Ok(accepted) => Reply {
                refusal: 0,
                value: accepted.value,
                node: accepted.node.unwrap_or(NodeId(0)).0,
            },
            Err(r) => Reply {
                refusal: u8::from(r),
                value: 0,
                node: 0,
            },
        }
    }
}
