// What a record is answered: that it is accepted, or why it is refused.
ghost use Rattle.std.specs.Prelude.{◌≡◌, Ok};
ghost use Rattle.answers.specs.Numbers.{accepted_with, number_of};
ghost use Rattle.answers.specs.declared.answer.Refusal.{Refusal};

use record_bits::bits::Fault;
use units::NodeId;

// A record that is accepted, with its value and the node of a failing row.
#[derive(Clone, Copy, PartialEq, Eq)]
pub struct Accepted {
    pub value: usize,
    pub node: Option<NodeId>,
}

impl Accepted {
    // No row fails.
    pub fn with(value: usize) -> Accepted
        ensures { Ok result ≡ accepted_with value }
    {
        Accepted { value, node: None }
    }
}

// Why a record is refused.
#[derive(Clone, Copy, PartialEq, Eq)]
pub enum Refusal {
    // 1 to 5: the first fault of its bytes.
    Unreadable(Fault),
    // 6
    PrefixesFull,
    // 7
    FindingsFull,
    // 8
    OldExceedsNew,
    // 9
    LengthExceedsFront,
    // 10
    CertificatesFull,
    // 12
    StorageBroken,
    // 14
    LeaderLogsFull,
}

impl From<Fault> for Refusal {
    ghost from_gives = { λ f result. result ≡ Refusal.Unreadable f };

    fn from(f: Fault) -> Refusal {
        Refusal::Unreadable(f)
    }
}

// Document 01's number of a refusal.
impl From<Refusal> for u8 {
    ghost from_gives = { λ r result. result ≡ number_of r };

    fn from(r: Refusal) -> u8 {
        match r {
            Refusal::Unreadable(f) => u8::from(f),
            Refusal::PrefixesFull => 6,
            Refusal::FindingsFull => 7,
            Refusal::OldExceedsNew => 8,
            Refusal::LengthExceedsFront => 9,
            Refusal::CertificatesFull => 10,
            Refusal::StorageBroken => 12,
            Refusal::LeaderLogsFull => 14,
        }
    }
}
