// The eight calls. Each promises, for every input, its answer and what both lent slices then hold, by one definition: `in_place` of its defining sum.
// They are not one with those of `type2and3_float`: C has both, and these refuse by 3 as well, are lent no tables and promise the sums.
ghost use Rattle.std.specs.Prelude.{◌≡◌, length};
ghost use Rattle.ring.specs.Part.{cleared};
ghost use Rattle.answers.specs.Said.{says};
ghost use Rattle.sums.specs.Call.{outcome, in_place};
ghost use Rattle.sums.specs.Transform.{dct2_sum, dst2_sum, dct3_sum, dst3_sum};
ghost use Rattle.lending.specs.Accepted.{Accepted};
ghost use Rattle.type2and3_plans.specs.Sum.{sum_by};

use crate::Plan;
use answers::Refusal;
use type2and3_plans::{Transform, fast, naive};

// An accepted call, by either plan. A match, for the reason that `fast::split` of `type2and3_plans` has.
fn run(plan: Plan, which: Transform, n: usize, buffer: &mut [u32], scratch: &mut [u32])
    requires { Accepted 1 n buffer.old (length scratch.old) }
    ensures { (buffer.new ≡ sum_by which buffer.old) × (scratch.new ≡ cleared 0 n scratch.old) }
{
    match plan {
        Plan::Naive => naive::transform(which, n, buffer, scratch),
        Plan::Fast => fast::transform(which, n, buffer, scratch),
    }
}

// The tests, and where they are passed the transform.
#[tactic(auto, using(lending::proofs::Accepted::in_place_accepted))]
fn call(
    plan: Plan,
    which: Transform,
    n: usize,
    buffer: &mut [u32],
    scratch: &mut [u32],
) -> Result<(), Refusal>
    ensures { outcome (says result) buffer.new scratch.new ≡ in_place 1 (sum_by which) n buffer.old scratch.old }
{
    lending::in_place_answer(1, n, buffer, scratch.len())?;
    run(plan, which, n, buffer, scratch);
    Ok(())
}

// DCT-II by its defining sum.
pub fn dct2_naive(n: usize, buffer: &mut [u32], scratch: &mut [u32]) -> Result<(), Refusal>
    ensures { outcome (says result) buffer.new scratch.new ≡ in_place 1 dct2_sum n buffer.old scratch.old }
{
    call(Plan::Naive, Transform::Dct2, n, buffer, scratch)
}

// DCT-II by split radix.
pub fn dct2_fast(n: usize, buffer: &mut [u32], scratch: &mut [u32]) -> Result<(), Refusal>
    ensures { outcome (says result) buffer.new scratch.new ≡ in_place 1 dct2_sum n buffer.old scratch.old }
{
    call(Plan::Fast, Transform::Dct2, n, buffer, scratch)
}

// DST-II by its defining sum.
pub fn dst2_naive(n: usize, buffer: &mut [u32], scratch: &mut [u32]) -> Result<(), Refusal>
    ensures { outcome (says result) buffer.new scratch.new ≡ in_place 1 dst2_sum n buffer.old scratch.old }
{
    call(Plan::Naive, Transform::Dst2, n, buffer, scratch)
}

// DST-II by split radix.
pub fn dst2_fast(n: usize, buffer: &mut [u32], scratch: &mut [u32]) -> Result<(), Refusal>
    ensures { outcome (says result) buffer.new scratch.new ≡ in_place 1 dst2_sum n buffer.old scratch.old }
{
    call(Plan::Fast, Transform::Dst2, n, buffer, scratch)
}

// DCT-III by its defining sum.
pub fn dct3_naive(n: usize, buffer: &mut [u32], scratch: &mut [u32]) -> Result<(), Refusal>
    ensures { outcome (says result) buffer.new scratch.new ≡ in_place 1 dct3_sum n buffer.old scratch.old }
{
    call(Plan::Naive, Transform::Dct3, n, buffer, scratch)
}

// DCT-III by split radix.
pub fn dct3_fast(n: usize, buffer: &mut [u32], scratch: &mut [u32]) -> Result<(), Refusal>
    ensures { outcome (says result) buffer.new scratch.new ≡ in_place 1 dct3_sum n buffer.old scratch.old }
{
    call(Plan::Fast, Transform::Dct3, n, buffer, scratch)
}

// DST-III by its defining sum.
pub fn dst3_naive(n: usize, buffer: &mut [u32], scratch: &mut [u32]) -> Result<(), Refusal>
    ensures { outcome (says result) buffer.new scratch.new ≡ in_place 1 dst3_sum n buffer.old scratch.old }
{
    call(Plan::Naive, Transform::Dst3, n, buffer, scratch)
}

// DST-III by split radix.
pub fn dst3_fast(n: usize, buffer: &mut [u32], scratch: &mut [u32]) -> Result<(), Refusal>
    ensures { outcome (says result) buffer.new scratch.new ≡ in_place 1 dst3_sum n buffer.old scratch.old }
{
    call(Plan::Fast, Transform::Dst3, n, buffer, scratch)
}
