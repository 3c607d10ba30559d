// MDCT and IMDCT across the C interface. The naive calls need no scratch, the fast ones two parts of n.
ghost use Rattle.sums.specs.Call.{mdct_call, imdct_call};
ghost use Rattle.sums.specs.Returned.{Returned, ReturnedSpread};

use answers::answer_number;
use mdct_residue::calls;

#[unsafe(no_mangle)]
pub extern "C" fn kultygash_residue_mdct_naive(
    n: usize,
    first: &[u32],
    second: &[u32],
    output: &mut [u32],
    window: &[u32],
    scratch: &mut [u32],
) -> u32
    ensures { Returned result output.new scratch.new (mdct_call 0 n first.now second.now output.old window.now scratch.old) }
{
    answer_number(calls::mdct_naive(n, first, second, output, window, scratch))
}

#[unsafe(no_mangle)]
pub extern "C" fn kultygash_residue_mdct_fast(
    n: usize,
    first: &[u32],
    second: &[u32],
    output: &mut [u32],
    window: &[u32],
    scratch: &mut [u32],
) -> u32
    ensures { Returned result output.new scratch.new (mdct_call 2 n first.now second.now output.old window.now scratch.old) }
{
    answer_number(calls::mdct_fast(n, first, second, output, window, scratch))
}

#[unsafe(no_mangle)]
pub extern "C" fn kultygash_residue_imdct_naive(
    n: usize,
    input: &[u32],
    first: &mut [u32],
    second: &mut [u32],
    window: &[u32],
    scratch: &mut [u32],
) -> u32
    ensures { ReturnedSpread result first.new second.new scratch.new (imdct_call 0 n input.now first.old second.old window.now scratch.old) }
{
    answer_number(calls::imdct_naive(n, input, first, second, window, scratch))
}

#[unsafe(no_mangle)]
pub extern "C" fn kultygash_residue_imdct_fast(
    n: usize,
    input: &[u32],
    first: &mut [u32],
    second: &mut [u32],
    window: &[u32],
    scratch: &mut [u32],
) -> u32
    ensures { ReturnedSpread result first.new second.new scratch.new (imdct_call 2 n input.now first.old second.old window.now scratch.old) }
{
    answer_number(calls::imdct_fast(n, input, first, second, window, scratch))
}
