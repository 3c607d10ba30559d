// An accepted MDCT or IMDCT by way of DCT-IV: a unit of the tables is 1/(8n) of a turn, as it turns by the angles of a transform of twice as many entries. What is required
// here, the tests of a call have shown.
ghost use Rattle.std.specs.Prelude.{◌≡◌, ◌*◌, length};
ghost use Rattle.ring.specs.Part.{cleared};
ghost use Rattle.algorithms.specs.Fast.{mdct_fast, imdct_fast_first, imdct_fast_second};
ghost use Rattle.floats.specs.Accepted.{FastBlock};
ghost use Rattle.floats.specs.Arithmetic.{float_zero, float_ops, table_twiddles};

use places::unit;
use split::twiddles::{Tables, WholeTurn};

pub fn mdct(
    n: usize,
    cosines: &[f64],
    sines: &[f64],
    first: &[f64],
    second: &[f64],
    output: &mut [f64],
    window: &[f64],
    scratch: &mut [f64],
)
    requires { FastBlock n (length cosines.now) (length sines.now) (length first.now) (length second.now) (length output.old) (length window.now) (length scratch.old) }
    ensures { (output.new ≡ mdct_fast float_ops (table_twiddles cosines.now sines.now) n window.now first.now second.now)
        × (scratch.new ≡ cleared float_zero (2 * n) scratch.old) }
{
    let unit = unit(n);
    let whole = &WholeTurn { cosines, sines };
    let by = Tables { whole, unit };
    mdct_fast::mdct(by, n, first, second, output, window, scratch);
}

pub fn imdct(
    n: usize,
    cosines: &[f64],
    sines: &[f64],
    input: &[f64],
    first: &mut [f64],
    second: &mut [f64],
    window: &[f64],
    scratch: &mut [f64],
)
    requires { FastBlock n (length cosines.now) (length sines.now) (length input.now) (length first.old) (length second.old) (length window.now) (length scratch.old) }
    ensures { (first.new ≡ imdct_fast_first float_ops (table_twiddles cosines.now sines.now) n window.now input.now first.old)
        × (second.new ≡ imdct_fast_second float_ops (table_twiddles cosines.now sines.now) n window.now input.now second.old)
        × (scratch.new ≡ cleared float_zero (2 * n) scratch.old) }
{
    let unit = unit(n);
    let whole = &WholeTurn { cosines, sines };
    let by = Tables { whole, unit };
    mdct_fast::imdct(by, n, input, first, second, window, scratch);
}
