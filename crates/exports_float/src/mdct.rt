// MDCT and IMDCT over floats across the C interface. The naive calls take one table and need no scratch, the fast ones take two and need two parts of n.
ghost use Rattle.sums.specs.Returned.{Returned, ReturnedSpread};
ghost use Rattle.floats.specs.Call.{mdct_naive_call, mdct_fast_call, imdct_naive_call, imdct_fast_call};

use answers::answer_number;
use mdct_float::calls;

#[unsafe(no_mangle)]
pub extern "C" fn kultygash_float_mdct_naive(
    n: usize,
    table: &[f64],
    first: &[f64],
    second: &[f64],
    output: &mut [f64],
    window: &[f64],
    scratch: &mut [f64],
) -> u32
    ensures { Returned result output.new scratch.new (mdct_naive_call n table.now first.now second.now output.old window.now scratch.old) }
{
    answer_number(calls::mdct_naive(n, table, first, second, output, window, scratch))
}

#[unsafe(no_mangle)]
pub extern "C" fn kultygash_float_imdct_naive(
    n: usize,
    table: &[f64],
    input: &[f64],
    first: &mut [f64],
    second: &mut [f64],
    window: &[f64],
    scratch: &mut [f64],
) -> u32
    ensures { ReturnedSpread result first.new second.new scratch.new (imdct_naive_call n table.now input.now first.old second.old window.now scratch.old) }
{
    answer_number(calls::imdct_naive(n, table, input, first, second, window, scratch))
}

#[unsafe(no_mangle)]
pub extern "C" fn kultygash_float_mdct_fast(
    n: usize,
    cosines: &[f64],
    sines: &[f64],
    first: &[f64],
    second: &[f64],
    output: &mut [f64],
    window: &[f64],
    scratch: &mut [f64],
) -> u32
    ensures { Returned result output.new scratch.new (mdct_fast_call n cosines.now sines.now first.now second.now output.old window.now scratch.old) }
{
    answer_number(calls::mdct_fast(n, cosines, sines, first, second, output, window, scratch))
}

#[unsafe(no_mangle)]
pub extern "C" fn kultygash_float_imdct_fast(
    n: usize,
    cosines: &[f64],
    sines: &[f64],
    input: &[f64],
    first: &mut [f64],
    second: &mut [f64],
    window: &[f64],
    scratch: &mut [f64],
) -> u32
    ensures { ReturnedSpread result first.new second.new scratch.new (imdct_fast_call n cosines.now sines.now input.now first.old second.old window.now scratch.old) }
{
    answer_number(calls::imdct_fast(n, cosines, sines, input, first, second, window, scratch))
}
