// An accepted MDCT or IMDCT by way of DCT-IV, which turns by the angles of a transform of twice as many entries. What is required here, the tests of a call have shown.
ghost use Rattle.std.specs.Prelude.{◌≡◌, ◌++◌, ◌*◌, length, take, drop};
ghost use Rattle.ring.specs.Part.{cleared};
ghost use Rattle.sums.specs.Transform.{mdct_sum, imdct_sum};
ghost use Rattle.lending.specs.Accepted.{MdctAccepted, ImdctAccepted};

use split::twiddles::Levels;

pub fn mdct(
    n: usize,
    first: &[u32],
    second: &[u32],
    output: &mut [u32],
    window: &[u32],
    scratch: &mut [u32],
)
    requires { MdctAccepted 2 n first.now second.now output.old window.now (length scratch.old) }
    ensures { (output.new ≡ mdct_sum n window.now (first.now ++ second.now))
        × (scratch.new ≡ cleared 0 (2 * n) scratch.old) }
{
    let table = cosines::levels(2 * n);
    mdct_fast::mdct(Levels { table }, n, first, second, output, window, scratch);
}

pub fn imdct(
    n: usize,
    input: &[u32],
    first: &mut [u32],
    second: &mut [u32],
    window: &[u32],
    scratch: &mut [u32],
)
    requires { ImdctAccepted 2 n input.now first.old second.old window.now (length scratch.old) }
    ensures { (first.new ≡ take n (imdct_sum n window.now (first.old ++ second.old) input.now))
        × (second.new ≡ drop n (imdct_sum n window.now (first.old ++ second.old) input.now))
        × (scratch.new ≡ cleared 0 (2 * n) scratch.old) }
{
    let table = cosines::levels(2 * n);
    mdct_fast::imdct(Levels { table }, n, input, first, second, window, scratch);
}
