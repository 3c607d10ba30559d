// The way back: DCT-III after DCT-II is n/2 times the buffer. Stated of the calls, it is the promise of this one.
ghost use Rattle.std.specs.Prelude.{◌≡◌};
ghost use Rattle.answers.specs.Said.{says};
ghost use Rattle.sums.specs.Call.{outcome, in_place};
ghost use Rattle.sums.specs.Transform.{times_half_length};

use crate::calls;
use answers::Refusal;

// DCT-II and, where it is done, DCT-III, both by split radix.
pub fn dct2_and_back(n: usize, buffer: &mut [u32], scratch: &mut [u32]) -> Result<(), Refusal>
    ensures { outcome (says result) buffer.new scratch.new ≡ in_place 1 times_half_length n buffer.old scratch.old }
{
    calls::dct2_fast(n, buffer, scratch)?;
    calls::dct3_fast(n, buffer, scratch)
}
