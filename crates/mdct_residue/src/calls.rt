// The four calls. Each promises, for every input, its answer and what every lent slice then holds, by one definition: `mdct_call` or `imdct_call`.
// They are not one with those of `mdct_float`: C has both, and these refuse by 3 and 4 as well, are lent no tables and promise the sums.
ghost use Rattle.std.specs.Prelude.{◌≡◌};
ghost use Rattle.answers.specs.Said.{says};
ghost use Rattle.sums.specs.Call.{outcome, mdct_call, spread, imdct_call};

use crate::{fast, naive};
use answers::Refusal;

// MDCT by its defining sum. It overwrites its output.
pub fn mdct_naive(
    n: usize,
    first: &[u32],
    second: &[u32],
    output: &mut [u32],
    window: &[u32],
    scratch: &mut [u32],
) -> Result<(), Refusal>
    ensures { outcome (says result) output.new scratch.new ≡ mdct_call 0 n first.now second.now output.old window.now scratch.old }
{
    mdct_answers::mdct_answer(0, n, first, second, output, window, scratch.len())?;
    naive::mdct(n, first, second, output, window);
    Ok(())
}

// MDCT by way of DCT-IV.
pub fn mdct_fast(
    n: usize,
    first: &[u32],
    second: &[u32],
    output: &mut [u32],
    window: &[u32],
    scratch: &mut [u32],
) -> Result<(), Refusal>
    ensures { outcome (says result) output.new scratch.new ≡ mdct_call 2 n first.now second.now output.old window.now scratch.old }
{
    mdct_answers::mdct_answer(2, n, first, second, output, window, scratch.len())?;
    fast::mdct(n, first, second, output, window, scratch);
    Ok(())
}

// IMDCT by its defining sum. It adds to both outputs.
pub fn imdct_naive(
    n: usize,
    input: &[u32],
    first: &mut [u32],
    second: &mut [u32],
    window: &[u32],
    scratch: &mut [u32],
) -> Result<(), Refusal>
    ensures { spread (says result) first.new second.new scratch.new ≡ imdct_call 0 n input.now first.old second.old window.now scratch.old }
{
    mdct_answers::imdct_answer(0, n, input, first, second, window, scratch.len())?;
    naive::imdct(n, input, first, second, window);
    Ok(())
}

// IMDCT by way of DCT-IV.
pub fn imdct_fast(
    n: usize,
    input: &[u32],
    first: &mut [u32],
    second: &mut [u32],
    window: &[u32],
    scratch: &mut [u32],
) -> Result<(), Refusal>
    ensures { spread (says result) first.new second.new scratch.new ≡ imdct_call 2 n input.now first.old second.old window.now scratch.old }
{
    mdct_answers::imdct_answer(2, n, input, first, second, window, scratch.len())?;
    fast::imdct(n, input, first, second, window, scratch);
    Ok(())
}
