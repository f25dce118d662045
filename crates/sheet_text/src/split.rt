// A recording split into its pieces: each behind its length in two bytes, high byte first.
ghost use Rattle.std.specs.Prelude.{◌≤◌, length};
ghost use Rattle.sheet_text.specs.Pieces.{Split, Moved};

use storage_bytes::words::get16;

// What the bytes from a place on begin with. Three outcomes and no Option: its contract says whether bytes are left over.
#[derive(Clone, Copy)]
pub enum Piece {
    // A record, perhaps of no bytes: where it begins, and its length.
    Whole { body: usize, size: usize },
    // A length or a record of which not all is there.
    Cut,
    // No byte.
    Nothing,
}

pub fn piece_at(s: &[u8], at: usize) -> Piece
    requires { at ≤ length s.now }
    ensures { Split s.now at result }
{
    let left = s.len() - at;
    if left == 0 {
        return Piece::Nothing;
    }
    if left < 2 {
        return Piece::Cut;
    }
    let size = get16(s, at);
    if left - 2 < size {
        return Piece::Cut;
    }
    Piece::Whole { body: at + 2, size }
}

// The bytes from `from` to `to` moved to the front: how many they are.
#[tactic(auto, using(crate::proofs::SplitLaws::moved_front))]
pub fn move_down(t: &mut [u8], from: usize, to: usize) -> usize
    requires from_le_to { from ≤ to }
    requires to_in_bounds { to ≤ length t.old }
    ensures { Moved t.old from to result t.new }
{
    t.copy_within(from..to, 0);
    to - from
}
