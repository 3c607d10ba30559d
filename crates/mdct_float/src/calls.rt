// The four calls. Each promises, for every input, its answer and what every lent slice then holds, by one definition of its own.
// C lends the two tables side by side. So do these, which test both lengths first; an accepted call makes `Tables` of them.
ghost use Rattle.std.specs.Prelude.{◌≡◌};
ghost use Rattle.answers.specs.Said.{says};
ghost use Rattle.sums.specs.Call.{outcome, spread};
ghost use Rattle.floats.specs.Call.{mdct_naive_call, mdct_fast_call, imdct_naive_call, imdct_fast_call};

use crate::{fast, naive};
use answers::Refusal;
use lending_float::{fast_block_answer, naive_block_answer};

// MDCT term by term. It overwrites its output.
#[tactic(auto, using(lending_float::proofs::Accepted::naive_block))]
pub fn mdct_naive(
    n: usize,
    table: &[f64],
    first: &[f64],
    second: &[f64],
    output: &mut [f64],
    window: &[f64],
    scratch: &mut [f64],
) -> Result<(), Refusal>
    ensures { outcome (says result) output.new scratch.new ≡ mdct_naive_call n table.now first.now second.now output.old window.now scratch.old }
{
    naive_block_answer(
        n,
        table.len(),
        first.len(),
        second.len(),
        output.len(),
        window.len(),
        scratch.len(),
    )?;
    naive::mdct(n, table, first, second, output, window);
    Ok(())
}

// IMDCT term by term. It adds to both outputs.
#[tactic(auto, using(lending_float::proofs::Accepted::naive_block))]
pub fn imdct_naive(
    n: usize,
    table: &[f64],
    input: &[f64],
    first: &mut [f64],
    second: &mut [f64],
    window: &[f64],
    scratch: &mut [f64],
) -> Result<(), Refusal>
    ensures { spread (says result) first.new second.new scratch.new ≡ imdct_naive_call n table.now input.now first.old second.old window.now scratch.old }
{
    naive_block_answer(
        n,
        table.len(),
        input.len(),
        first.len(),
        second.len(),
        window.len(),
        scratch.len(),
    )?;
    naive::imdct(n, table, input, first, second, window);
    Ok(())
}

// MDCT by way of DCT-IV. It overwrites its output.
#[tactic(auto, using(lending_float::proofs::Accepted::fast_block))]
pub fn mdct_fast(
    n: usize,
    cosines: &[f64],
    sines: &[f64],
    first: &[f64],
    second: &[f64],
    output: &mut [f64],
    window: &[f64],
    scratch: &mut [f64],
) -> Result<(), Refusal>
    ensures { outcome (says result) output.new scratch.new ≡ mdct_fast_call n cosines.now sines.now first.now second.now output.old window.now scratch.old }
{
    fast_block_answer(
        n,
        cosines.len(),
        sines.len(),
        first.len(),
        second.len(),
        output.len(),
        window.len(),
        scratch.len(),
    )?;
    fast::mdct(n, cosines, sines, first, second, output, window, scratch);
    Ok(())
}

// IMDCT by way of DCT-IV. It adds to both outputs.
#[tactic(auto, using(lending_float::proofs::Accepted::fast_block))]
pub fn imdct_fast(
    n: usize,
    cosines: &[f64],
    sines: &[f64],
    input: &[f64],
    first: &mut [f64],
    second: &mut [f64],
    window: &[f64],
    scratch: &mut [f64],
) -> Result<(), Refusal>
    ensures { spread (says result) first.new second.new scratch.new ≡ imdct_fast_call n cosines.now sines.now input.now first.old second.old window.now scratch.old }
{
    fast_block_answer(
        n,
        cosines.len(),
        sines.len(),
        input.len(),
        first.len(),
        second.len(),
        window.len(),
        scratch.len(),
    )?;
    fast::imdct(n, cosines, sines, input, first, second, window, scratch);
    Ok(())
}
