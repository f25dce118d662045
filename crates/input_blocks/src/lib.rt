// An input read in blocks: a block comes short only where the input ends.
#![tactic(auto)]

ghost use Rattle.std.specs.Prelude.{◌<◌, ◌≤◌, ℕ, IfErr, IfOk, length, take};
ghost use Rattle.std.specs.Io.{ReadsAtMost};
ghost use Rattle.std.specs.Io.KnownBytes.{Consumes, IsAtEnd};

use std::io;
use std::io::Read;

// Reads until the block is full or the input ends: how many bytes stand at the start of the block. Where a read fails, what was taken
// from the reader before stands there too.
pub fn fill<R: Read>(reader: &mut R, block: &mut [u8]) -> io::Result<usize>
    ensures bound { ReadsAtMost result block.new }
    ensures bytes { IfOk result (λ n. Consumes (R.remaining reader.old) (R.remaining reader.new) (take n block.new)) }
    ensures failed { IfErr result (λ _. (n : ℕ) × (n ≤ length block.new) × Consumes (R.remaining reader.old) (R.remaining reader.new) (take n block.new)) }
    ensures end { IfOk result (λ n. n < length block.new → IsAtEnd (R.remaining reader.new)) }
{
    let mut filled = 0;
    // how much a read gives is not known before: no index is counted
    while filled < block.len() {
        let n = reader.read(&mut block[filled..])?;
        if n == 0 {
            break;
        }
        filled += n;
    }
    Ok(filled)
}
