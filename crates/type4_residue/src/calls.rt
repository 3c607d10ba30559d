// The two calls. Each promises, for every input, its answer and what both lent slices then hold, by one definition: `in_place` of its defining sum.
// They are not one with those of `type4_float`: C has both, and these refuse by 3 as well, are lent no tables and promise the sums.
ghost use Rattle.std.specs.Prelude.{◌≡◌};
ghost use Rattle.answers.specs.Said.{says};
ghost use Rattle.sums.specs.Call.{outcome, in_place};
ghost use Rattle.sums.specs.Transform.{dct4_sum, dst4_sum};
ghost use Rattle.type4_plans.specs.Sum.{sum_by};

use answers::Refusal;
use type4_plans::{Transform, fast};

// The tests, and where they are passed the transform.
#[tactic(auto, using(lending::proofs::Accepted::in_place_accepted))]
fn call(which: Transform, n: usize, buffer: &mut [u32], scratch: &mut [u32]) -> Result<(), Refusal>
    ensures { outcome (says result) buffer.new scratch.new ≡ in_place 2 (sum_by which) n buffer.old scratch.old }
{
    lending::in_place_answer(2, n, buffer, scratch.len())?;
    fast::transform(which, n, buffer, scratch);
    Ok(())
}

// DCT-IV by a DCT-III and a DST-III of half the length.
pub fn dct4_fast(n: usize, buffer: &mut [u32], scratch: &mut [u32]) -> Result<(), Refusal>
    ensures { outcome (says result) buffer.new scratch.new ≡ in_place 2 dct4_sum n buffer.old scratch.old }
{
    call(Transform::Dct4, n, buffer, scratch)
}

// DST-IV by the same two.
pub fn dst4_fast(n: usize, buffer: &mut [u32], scratch: &mut [u32]) -> Result<(), Refusal>
    ensures { outcome (says result) buffer.new scratch.new ≡ in_place 2 dst4_sum n buffer.old scratch.old }
{
    call(Transform::Dst4, n, buffer, scratch)
}
