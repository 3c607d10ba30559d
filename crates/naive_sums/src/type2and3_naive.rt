// type2and3_naive.rs: DCT-II, DST-II, DCT-III and DST-III by their sums, term by term, over any numbers. The circle is lent: cosines for a DCT, sines for a DST; `unit` is how
// many of its places make up 1/(4N) of a turn, where N is the length of `x` and of `out`.
// The Rust's twiddle index and stride are the first place and the step here, each with what it grows by from one sum to the next.
// The Rust stores −sin and subtracts the product; here sin is lent and the product added, which has the same bits.
ghost use Rattle.std.specs.Prelude.{◌≡◌};
ghost use Rattle.algorithms.specs.Naive.{naive_dct2, naive_dst2, naive_dct3, naive_dst3};
ghost use Rattle.naive_sums.specs.Circled.{read_twiddles};
ghost use Rattle.naive_sums.specs.Ready.{Ready};

use crate::angle_sums::{angle_sum, angle_sums};
use crate::circle::Circle;
use numbers::Number;
use places::further;

#[tactic(auto, using(crate::proofs::Sums::dct2_is))]
pub fn dct2<T: Number, C: Circle<T>>(circle: C, unit: usize, x: &[T], out: &mut [T])
    requires { Ready T.ops T.Fits C.turn C.sound circle 4 unit x.now out.old }
    ensures { out.new ≡ naive_dct2 T.ops (read_twiddles (C.reads circle)) x.now }
{
    angle_sums(circle, x, out, T::zero(), 0, unit, 0, 2 * unit);
}

#[tactic(auto, using(crate::proofs::Sums::dst2_is))]
pub fn dst2<T: Number, C: Circle<T>>(circle: C, unit: usize, x: &[T], out: &mut [T])
    requires { Ready T.ops T.Fits C.turn C.sound circle 4 unit x.now out.old }
    ensures { out.new ≡ naive_dst2 T.ops (read_twiddles (C.reads circle)) x.now }
{
    angle_sums(circle, x, out, T::zero(), unit, unit, 2 * unit, 2 * unit);
}

// Every sum begins with half of the first entry.
#[tactic(auto, using(crate::proofs::Sums::dct3_is))]
pub fn dct3<T: Number, C: Circle<T>>(circle: C, unit: usize, x: &[T], out: &mut [T])
    requires { Ready T.ops T.Fits C.turn C.sound circle 4 unit x.now out.old }
    ensures { out.new ≡ naive_dct3 T.ops (read_twiddles (C.reads circle)) x.now }
{
    let half = x[0].halved();
    angle_sums(circle, &x[1..], out, half, unit, 2 * unit, unit, 2 * unit);
}

// The last entry is halved, and its term added to the sum over the entries before it. Entry i stands at i + 1 steps, so the last one at n.
pub fn dst3<T: Number, C: Circle<T>>(circle: C, unit: usize, x: &[T], out: &mut [T])
    requires { Ready T.ops T.Fits C.turn C.sound circle 4 unit x.now out.old }
    ensures { out.new ≡ naive_dst3 T.ops (read_twiddles (C.reads circle)) x.now }
{
    let n = x.len();
    let turn = circle.len();
    let half = x[n - 1].halved();
    let mut step = unit;
    let mut place = n * unit;
    for value in out.iter_mut() {
        let sum = angle_sum(circle, &x[..n - 1], T::zero(), step, step);
        *value = sum.added(half, circle.at(place));
        step = further(step, 2 * unit, turn);
        place = further(place, 2 * n * unit, turn);
    }
}
