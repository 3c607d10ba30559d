// The C interface of the floats (include/kultygash.h): each call with document 01's number for its answer, where 0 is done. A slice crosses as a pointer and a length.
// Here are the transforms in place; the MDCT (`mdct`) is beside it. The two tables cross side by side, since a struct of slices can't.
#![tactic(auto)]

ghost use Rattle.sums.specs.Returned.{Returned};
ghost use Rattle.algorithms.specs.Naive.{naive_dct2, naive_dst2, naive_dct3, naive_dst3};
ghost use Rattle.algorithms.specs.Fast.{dct2_fast, dst2_fast, dct3_fast, dst3_fast, dct4_fast, dst4_fast};
ghost use Rattle.floats.specs.Arithmetic.{float_ops};
ghost use Rattle.floats.specs.Call.{naive_call, fast_call};

use answers::answer_number;
use type2and3_float::calls;

pub mod mdct;

#[unsafe(no_mangle)]
pub extern "C" fn kultygash_float_dct2_naive(
    n: usize,
    cosines: &[f64],
    sines: &[f64],
    buffer: &mut [f64],
    scratch: &mut [f64],
) -> u32
    ensures { Returned result buffer.new scratch.new (naive_call (naive_dct2 float_ops) n cosines.now sines.now buffer.old scratch.old) }
{
    answer_number(calls::dct2_naive(n, cosines, sines, buffer, scratch))
}

#[unsafe(no_mangle)]
pub extern "C" fn kultygash_float_dct2_fast(
    n: usize,
    cosines: &[f64],
    sines: &[f64],
    buffer: &mut [f64],
    scratch: &mut [f64],
) -> u32
    ensures { Returned result buffer.new scratch.new (fast_call 1 (dct2_fast float_ops) n cosines.now sines.now buffer.old scratch.old) }
{
    answer_number(calls::dct2_fast(n, cosines, sines, buffer, scratch))
}

#[unsafe(no_mangle)]
pub extern "C" fn kultygash_float_dst2_naive(
    n: usize,
    cosines: &[f64],
    sines: &[f64],
    buffer: &mut [f64],
    scratch: &mut [f64],
) -> u32
    ensures { Returned result buffer.new scratch.new (naive_call (naive_dst2 float_ops) n cosines.now sines.now buffer.old scratch.old) }
{
    answer_number(calls::dst2_naive(n, cosines, sines, buffer, scratch))
}

#[unsafe(no_mangle)]
pub extern "C" fn kultygash_float_dst2_fast(
    n: usize,
    cosines: &[f64],
    sines: &[f64],
    buffer: &mut [f64],
    scratch: &mut [f64],
) -> u32
    ensures { Returned result buffer.new scratch.new (fast_call 1 (dst2_fast float_ops) n cosines.now sines.now buffer.old scratch.old) }
{
    answer_number(calls::dst2_fast(n, cosines, sines, buffer, scratch))
}

#[unsafe(no_mangle)]
pub extern "C" fn kultygash_float_dct3_naive(
    n: usize,
    cosines: &[f64],
    sines: &[f64],
    buffer: &mut [f64],
    scratch: &mut [f64],
) -> u32
    ensures { Returned result buffer.new scratch.new (naive_call (naive_dct3 float_ops) n cosines.now sines.now buffer.old scratch.old) }
{
    answer_number(calls::dct3_naive(n, cosines, sines, buffer, scratch))
}

#[unsafe(no_mangle)]
pub extern "C" fn kultygash_float_dct3_fast(
    n: usize,
    cosines: &[f64],
    sines: &[f64],
    buffer: &mut [f64],
    scratch: &mut [f64],
) -> u32
    ensures { Returned result buffer.new scratch.new (fast_call 1 (dct3_fast float_ops) n cosines.now sines.now buffer.old scratch.old) }
{
    answer_number(calls::dct3_fast(n, cosines, sines, buffer, scratch))
}

#[unsafe(no_mangle)]
pub extern "C" fn kultygash_float_dst3_naive(
    n: usize,
    cosines: &[f64],
    sines: &[f64],
    buffer: &mut [f64],
    scratch: &mut [f64],
) -> u32
    ensures { Returned result buffer.new scratch.new (naive_call (naive_dst3 float_ops) n cosines.now sines.now buffer.old scratch.old) }
{
    answer_number(calls::dst3_naive(n, cosines, sines, buffer, scratch))
}

#[unsafe(no_mangle)]
pub extern "C" fn kultygash_float_dst3_fast(
    n: usize,
    cosines: &[f64],
    sines: &[f64],
    buffer: &mut [f64],
    scratch: &mut [f64],
) -> u32
    ensures { Returned result buffer.new scratch.new (fast_call 1 (dst3_fast float_ops) n cosines.now sines.now buffer.old scratch.old) }
{
    answer_number(calls::dst3_fast(n, cosines, sines, buffer, scratch))
}

#[unsafe(no_mangle)]
pub extern "C" fn kultygash_float_dct4_fast(
    n: usize,
    cosines: &[f64],
    sines: &[f64],
    buffer: &mut [f64],
    scratch: &mut [f64],
) -> u32
    ensures { Returned result buffer.new scratch.new (fast_call 2 (dct4_fast float_ops) n cosines.now sines.now buffer.old scratch.old) }
{
    answer_number(type4_float::calls::dct4_fast(n, cosines, sines, buffer, scratch))
}

#[unsafe(no_mangle)]
pub extern "C" fn kultygash_float_dst4_fast(
    n: usize,
    cosines: &[f64],
    sines: &[f64],
    buffer: &mut [f64],
    scratch: &mut [f64],
) -> u32
    ensures { Returned result buffer.new scratch.new (fast_call 2 (dst4_fast float_ops) n cosines.now sines.now buffer.old scratch.old) }
{
    answer_number(type4_float::calls::dst4_fast(n, cosines, sines, buffer, scratch))
}
