// mdct_via_dct4.rs over any numbers: fold, DCT-IV, and back DCT-IV, spread. Both are inner: what they require, the tests of a call have shown.
#![tactic(auto)]

ghost use Rattle.std.specs.Prelude.{◌≡◌, ◌*◌, length};
ghost use Rattle.ring.specs.Part.{cleared};
ghost use Rattle.algorithms.specs.Fast.{mdct_fast, imdct_fast_first, imdct_fast_second};
ghost use Rattle.mdct_fast.specs.Block.{MdctReady, ImdctReady};

use dct4::type4_convert_to_type3::dct4;
use fold::{fold, spread};
use leaves::Leaves;
use numbers::{Number, clear, copy};

// MDCT of two segments: the DCT-IV of their fold.
pub fn mdct<T: Number, W: Leaves<T>>(
    by: W,
    n: usize,
    first: &[T],
    second: &[T],
    output: &mut [T],
    window: &[T],
    scratch: &mut [T],
)
    requires { MdctReady T.ops T.Fits W.serves by n first.now second.now output.old window.now (length scratch.old) }
    ensures { (output.new ≡ mdct_fast T.ops (W.turn by) n window.now first.now second.now)
        × (scratch.new ≡ cleared T.ops.nought (2 * n) scratch.old) }
{
    fold(n / 2, first, second, window, output);
    dct4(by, output, &mut scratch[..n]);
    clear(scratch, 2 * n);
}

// IMDCT: the DCT-IV of the input, spread over both outputs and added to what they hold. It runs in one half of scratch, with the other half as its own scratch.
pub fn imdct<T: Number, W: Leaves<T>>(
    by: W,
    n: usize,
    input: &[T],
    first: &mut [T],
    second: &mut [T],
    window: &[T],
    scratch: &mut [T],
)
    requires { ImdctReady T.ops T.Fits W.serves by n input.now first.old second.old window.now (length scratch.old) }
    ensures { (first.new ≡ imdct_fast_first T.ops (W.turn by) n window.now input.now first.old)
        × (second.new ≡ imdct_fast_second T.ops (W.turn by) n window.now input.now second.old)
        × (scratch.new ≡ cleared T.ops.nought (2 * n) scratch.old) }
{
    let (turned, inner) = scratch[..2 * n].split_at_mut(n);
    copy(input, turned);
    dct4(by, turned, inner);
    spread(n / 2, turned, window, first, second);
    clear(scratch, 2 * n);
}
