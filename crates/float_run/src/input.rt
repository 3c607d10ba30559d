// Standard input as one piece.
ghost use Rattle.std.specs.Prelude.{◌<◌, ◌≤◌, length, take, IfOk};
ghost use Rattle.std.specs.Io.KnownBytes.{Consumes, IsAtEnd};

use std::io;
use std::io::Read;

// Reads until the slice is full or the input ends, and says how many bytes came: they stand at the front of the slice, in the input's order. A loop, since what std says of
// `reader.take(limit).read_to_end(..)` leaves open what the reader has left.
pub fn read_full<R: Read>(reader: &mut R, bytes: &mut [u8]) -> io::Result<usize>
    ensures within { IfOk result (λ n. n ≤ length bytes.new) }
    ensures front { IfOk result (λ n. Consumes (R.remaining reader.old) (R.remaining reader.new) (take n bytes.new)) }
    ensures end { IfOk result (λ n. n < length bytes.new → IsAtEnd (R.remaining reader.new)) }
{
    let mut read = 0;
    while read < bytes.len() {
        let more = reader.read(&mut bytes[read..])?;
        if more == 0 {
            return Ok(read);
        }
        read += more;
    }
    Ok(read)
}
