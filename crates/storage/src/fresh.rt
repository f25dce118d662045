// The fresh history: all zeros, in a lent buffer of the right length. A buffer of another length is refused, and left alone.
ghost use Rattle.std.specs.Prelude.{◌≡◌, length};
ghost use Rattle.storage.specs.Fresh.{zeros, FreshMade};

use storage_bytes::layout::HISTORY_LENGTH;

// Document 01's 12: the buffer has another length, and is as it was.
#[derive(Clone, Copy, PartialEq, Eq, Debug)]
pub struct WrongLength;

// Every byte is zero.
#[tactic(auto, unfolding(crate::specs::Fresh::zeros))]
pub fn clear(t: &mut [u8])
    ensures { t.new ≡ zeros (length t.old) }
{
    t.fill(0);
}

pub fn fresh(history: &mut [u8]) -> Result<(), WrongLength>
    ensures { FreshMade history.old result history.new }
{
    if history.len() != HISTORY_LENGTH {
        return Err(WrongLength);
    }
    clear(history);
    Ok(())
}
