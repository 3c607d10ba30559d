// An accepted MDCT or IMDCT by its defining sum: the circle is the odd cosines of the table of all 8,192 powers, of which 1024/n make up 1/(8n) of a turn. What is required here,
// the tests of a call have shown.
ghost use Rattle.std.specs.Prelude.{◌≡◌, ◌++◌, take, drop};
ghost use Rattle.sums.specs.Transform.{mdct_sum, imdct_sum};
ghost use Rattle.lending.specs.Accepted.{MdctAccepted, ImdctAccepted};

use naive_sums::circle::OddCosines;
use places::unit;

pub fn mdct(n: usize, first: &[u32], second: &[u32], output: &mut [u32], window: &[u32])
    requires { MdctAccepted 0 n first.now second.now output.old window.now 0 }
    ensures { output.new ≡ mdct_sum n window.now (first.now ++ second.now) }
{
    let table = powers::table();
    let unit = unit(n);
    let circle = OddCosines {
        powers: table,
        unit,
        turn: 4 * n,
    };
    mdct_naive::mdct(circle, n, first, second, output, window);
}

pub fn imdct(n: usize, input: &[u32], first: &mut [u32], second: &mut [u32], window: &[u32])
    requires { ImdctAccepted 0 n input.now first.old second.old window.now 0 }
    ensures { (first.new ≡ take n (imdct_sum n window.now (first.old ++ second.old) input.now))
        × (second.new ≡ drop n (imdct_sum n window.now (first.old ++ second.old) input.now)) }
{
    let table = powers::table();
    let unit = unit(n);
    let circle = OddCosines {
        powers: table,
        unit,
        turn: 4 * n,
    };
    mdct_naive::imdct(circle, n, input, first, second, window);
}
