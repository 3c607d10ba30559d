// An accepted MDCT or IMDCT by its sums: the table of 4n cosines is the circle. What is required here, the tests of a call have shown.
ghost use Rattle.std.specs.Prelude.{◌≡◌, length};
ghost use Rattle.algorithms.specs.Block.{naive_mdct, naive_imdct_first, naive_imdct_second};
ghost use Rattle.floats.specs.Accepted.{NaiveBlock};
ghost use Rattle.floats.specs.Arithmetic.{float_ops};

use naive_sums::circle::Entries;

pub fn mdct(
    n: usize,
    table: &[f64],
    first: &[f64],
    second: &[f64],
    output: &mut [f64],
    window: &[f64],
)
    requires { NaiveBlock n (length table.now) (length first.now) (length second.now) (length output.old) (length window.now) 0 }
    ensures { output.new ≡ naive_mdct float_ops n table.now window.now first.now second.now }
{
    mdct_naive::mdct(Entries { table }, n, first, second, output, window);
}

pub fn imdct(
    n: usize,
    table: &[f64],
    input: &[f64],
    first: &mut [f64],
    second: &mut [f64],
    window: &[f64],
)
    requires { NaiveBlock n (length table.now) (length input.now) (length first.old) (length second.old) (length window.now) 0 }
    ensures { (first.new ≡ naive_imdct_first float_ops n table.now window.now input.now first.old)
        × (second.new ≡ naive_imdct_second float_ops n table.now window.now input.now second.old) }
{
    mdct_naive::imdct(Entries { table }, n, input, first, second, window);
}
