// Runs of bits moved from a record into a lent buffer, whatever bits of a byte they begin with there and here.
ghost use Rattle.std.specs.Prelude.{◌≡◌, ◌+◌, ◌*◌, ◌^◌, ◌<◌, ◌≤◌, length};
ghost use Rattle.model.specs.Reading.{field_at};
ghost use Rattle.record_writing.specs.Puts.{put_field};

use record_bits::bits::bits_at;
use record_writing::put::put_bits;

// The bits that are moved at once. With any bits before them in their first byte, 57 bits reach into eight bytes, no more and no
// fewer: a word is read, and a word is written.
const PIECE: usize = 57;

// The w bits of s from bit `from` on, written from bit `at` on. The last piece ends with the run, and begins among bits that are
// there already: an odd piece would not reach into eight bytes.
pub fn move_bits(t: &mut [u8], at: usize, s: &[u8], from: usize, w: usize)
    requires { (0 < w) × (at + w ≤ 8 * length t.old) × (from + w ≤ 8 * length s.now) × (at + w < 2 ^ 63) × (from + w < 2 ^ 63) }
    ensures { t.new ≡ put_field t.old at w (field_at s.now from w) }
{
    if w < PIECE {
        put_bits(t, at, w, bits_at(s, from, w));
        return;
    }
    put_bits(t, at, PIECE, bits_at(s, from, PIECE));
    let mut done = PIECE;
    for _ in 0..w / PIECE - 1 {
        put_bits(t, at + done, PIECE, bits_at(s, from + done, PIECE));
        done += PIECE;
    }
    let last = w - PIECE;
    put_bits(t, at + last, PIECE, bits_at(s, from + last, PIECE));
}
