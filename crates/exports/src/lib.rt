// The C interface (include/kultygash.h): each call with document 01's number for its answer, where 0 is done. A slice crosses as a pointer and a length.
// Here are the transforms in place; the windows (`windows`) and the MDCT (`mdct`) are beside it.
#![tactic(auto)]

ghost use Rattle.sums.specs.Call.{in_place};
ghost use Rattle.sums.specs.Transform.{dct2_sum, dst2_sum, dct3_sum, dst3_sum, dct4_sum, dst4_sum};
ghost use Rattle.sums.specs.Returned.{Returned};

use answers::answer_number;
use type2and3_residue::calls;

pub mod mdct;
pub mod windows;

#[unsafe(no_mangle)]
pub extern "C" fn kultygash_residue_dct2_naive(
    n: usize,
    buffer: &mut [u32],
    scratch: &mut [u32],
) -> u32
    ensures { Returned result buffer.new scratch.new (in_place 1 dct2_sum n buffer.old scratch.old) }
{
    answer_number(calls::dct2_naive(n, buffer, scratch))
}

#[unsafe(no_mangle)]
pub extern "C" fn kultygash_residue_dct2_fast(
    n: usize,
    buffer: &mut [u32],
    scratch: &mut [u32],
) -> u32
    ensures { Returned result buffer.new scratch.new (in_place 1 dct2_sum n buffer.old scratch.old) }
{
    answer_number(calls::dct2_fast(n, buffer, scratch))
}

#[unsafe(no_mangle)]
pub extern "C" fn kultygash_residue_dst2_naive(
    n: usize,
    buffer: &mut [u32],
    scratch: &mut [u32],
) -> u32
    ensures { Returned result buffer.new scratch.new (in_place 1 dst2_sum n buffer.old scratch.old) }
{
    answer_number(calls::dst2_naive(n, buffer, scratch))
}

#[unsafe(no_mangle)]
pub extern "C" fn kultygash_residue_dst2_fast(
    n: usize,
    buffer: &mut [u32],
    scratch: &mut [u32],
) -> u32
    ensures { Returned result buffer.new scratch.new (in_place 1 dst2_sum n buffer.old scratch.old) }
{
    answer_number(calls::dst2_fast(n, buffer, scratch))
}

#[unsafe(no_mangle)]
pub extern "C" fn kultygash_residue_dct3_naive(
    n: usize,
    buffer: &mut [u32],
    scratch: &mut [u32],
) -> u32
    ensures { Returned result buffer.new scratch.new (in_place 1 dct3_sum n buffer.old scratch.old) }
{
    answer_number(calls::dct3_naive(n, buffer, scratch))
}

#[unsafe(no_mangle)]
pub extern "C" fn kultygash_residue_dct3_fast(
    n: usize,
    buffer: &mut [u32],
    scratch: &mut [u32],
) -> u32
    ensures { Returned result buffer.new scratch.new (in_place 1 dct3_sum n buffer.old scratch.old) }
{
    answer_number(calls::dct3_fast(n, buffer, scratch))
}

#[unsafe(no_mangle)]
pub extern "C" fn kultygash_residue_dst3_naive(
    n: usize,
    buffer: &mut [u32],
    scratch: &mut [u32],
) -> u32
    ensures { Returned result buffer.new scratch.new (in_place 1 dst3_sum n buffer.old scratch.old) }
{
    answer_number(calls::dst3_naive(n, buffer, scratch))
}

#[unsafe(no_mangle)]
pub extern "C" fn kultygash_residue_dst3_fast(
    n: usize,
    buffer: &mut [u32],
    scratch: &mut [u32],
) -> u32
    ensures { Returned result buffer.new scratch.new (in_place 1 dst3_sum n buffer.old scratch.old) }
{
    answer_number(calls::dst3_fast(n, buffer, scratch))
}

#[unsafe(no_mangle)]
pub extern "C" fn kultygash_residue_dct4_fast(
    n: usize,
    buffer: &mut [u32],
    scratch: &mut [u32],
) -> u32
    ensures { Returned result buffer.new scratch.new (in_place 2 dct4_sum n buffer.old scratch.old) }
{
    answer_number(type4_residue::calls::dct4_fast(n, buffer, scratch))
}

#[unsafe(no_mangle)]
pub extern "C" fn kultygash_residue_dst4_fast(
    n: usize,
    buffer: &mut [u32],
    scratch: &mut [u32],
) -> u32
    ensures { Returned result buffer.new scratch.new (in_place 2 dst4_sum n buffer.old scratch.old) }
{
    answer_number(type4_residue::calls::dst4_fast(n, buffer, scratch))
}
