// The way back: DCT-IV after DCT-IV is n/2 times the buffer. Stated of the calls, it is the promise of this one.
ghost use Rattle.std.specs.Prelude.{◌≡◌};
ghost use Rattle.answers.specs.Said.{says};
ghost use Rattle.sums.specs.Call.{outcome, in_place};
ghost use Rattle.sums.specs.Transform.{times_half_length};

use crate::calls;
use answers::Refusal;

// DCT-IV and, where it is done, DCT-IV again.
pub fn dct4_twice(n: usize, buffer: &mut [u32], scratch: &mut [u32]) -> Result<(), Refusal>
    ensures { outcome (says result) buffer.new scratch.new ≡ in_place 2 times_half_length n buffer.old scratch.old }
{
    calls::dct4_fast(n, buffer, scratch)?;
    calls::dct4_fast(n, buffer, scratch)
}
