// DCT-IV and DST-IV: what stands before and after the two inner transforms of m entries each, which follow each other in scratch. Half the length m is passed down, so
// that no loop divides.
ghost use Rattle.std.specs.Prelude.{◌≡◌, ◌++◌, ◌*◌};
ghost use Rattle.ring.specs.Part.{part};
ghost use Rattle.algorithms.specs.Four.{left_dct4, right_dct4, left_dst4, right_dst4, merge_dct4, merge_dst4};
ghost use Rattle.dct4.specs.Ready.{Split, Merge};

use numbers::Number;
use split::twiddles::Turns;

// Splits the buffer for DCT-IV: the first entry goes to the left and is doubled there, the last to the right.
#[tactic(auto, using(algorithms::proofs::StoresFour::dct4_paired))]
pub fn split_dct4<T: Number>(m: usize, x: &[T], s: &mut [T])
    requires { Split T.ops T.Fits m x.now s.old }
    ensures { s.new ≡ left_dct4 T.ops m x.now ++ right_dct4 T.ops m x.now }
{
    s[0] = x[0].doubled();
    s[2 * m - 1] = x[2 * m - 1].doubled();
    for k in 1..m {
        let before = x[2 * k - 1];
        let after = x[2 * k];
        s[k] = before.plus(after);
        s[m + k - 1] = before.minus(after);
    }
}

// Splits it for DST-IV: the first entry goes to the right and is doubled there, the last to the left.
#[tactic(auto, using(algorithms::proofs::StoresFour::dst4_paired))]
pub fn split_dst4<T: Number>(m: usize, x: &[T], s: &mut [T])
    requires { Split T.ops T.Fits m x.now s.old }
    ensures { s.new ≡ left_dst4 T.ops m x.now ++ right_dst4 T.ops m x.now }
{
    s[m] = x[0].doubled();
    s[m - 1] = x[2 * m - 1].doubled();
    for k in 1..m {
        let before = x[2 * k - 1];
        let after = x[2 * k];
        s[m + k] = after.minus(before);
        s[k - 1] = before.plus(after);
    }
}

// Merges the two results for DCT-IV.
#[tactic(auto, using(algorithms::proofs::StoresFour::dct4_merging))]
pub fn merge_dct4<T: Number, W: Turns<T>>(by: W, m: usize, s: &[T], x: &mut [T])
    requires { Merge T.ops T.Fits W.serves by m s.now x.old }
    ensures { x.new ≡ merge_dct4 T.ops (W.turn by) m (part 0 m s.now) (part m (2 * m) s.now) }
{
    for k in 0..m {
        let left = s[k];
        let right = s[m + k];
        let cos = by.cos(m, k);
        let sin = by.sin(m, k);
        x[k] = T::sum(left, cos, right, sin);
        x[2 * m - 1 - k] = T::difference(left, sin, right, cos);
    }
}

// Merges them for DST-IV.
#[tactic(auto, using(algorithms::proofs::StoresFour::dst4_merging))]
pub fn merge_dst4<T: Number, W: Turns<T>>(by: W, m: usize, s: &[T], x: &mut [T])
    requires { Merge T.ops T.Fits W.serves by m s.now x.old }
    ensures { x.new ≡ merge_dst4 T.ops (W.turn by) m (part 0 m s.now) (part m (2 * m) s.now) }
{
    for k in 0..m {
        let left = s[k];
        let right = s[m + k];
        let cos = by.cos(m, k);
        let sin = by.sin(m, k);
        x[k] = T::sum(left, cos, right, sin);
        x[2 * m - 1 - k] = T::difference(right, cos, left, sin);
    }
}
