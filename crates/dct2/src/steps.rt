// DCT-II by split radix: what stands before and after the three inner transforms. The quarter length q is passed down, so that no loop divides.
ghost use Rattle.std.specs.Prelude.{◌≡◌, ◌*◌, ◌≤◌, length};
ghost use Rattle.ring.specs.Part.{part};
ghost use Rattle.algorithms.specs.Split.{split_two, merge_two};
ghost use Rattle.numbers.specs.Closed.{AllFit};
ghost use Rattle.split.specs.Ready.{Step};

use numbers::Number;
use split::order::turned;
use split::twiddles::Turns;

// Splits the buffer into vectors of half, quarter and quarter length, which follow each other in scratch. The sine inputs change their sign by turns.
pub fn split<T: Number, W: Turns<T>>(by: W, q: usize, x: &[T], s: &mut [T])
    requires { Step T.ops T.Fits W.serves by q x.now s.old }
    ensures { s.new ≡ split_two T.ops (W.turn by) q x.now }
{
    for i in 0..q {
        let bottom = x[i];
        let half_bottom = x[2 * q - 1 - i];
        let half_top = x[2 * q + i];
        let top = x[4 * q - 1 - i];
        let lower_dct4 = bottom.minus(top);
        let upper_dct4 = half_bottom.minus(half_top);
        let cos = by.cos(q, i);
        let sin = by.sin(q, i);
        s[i] = top.plus(bottom);
        s[2 * q - 1 - i] = half_bottom.plus(half_top);
        s[2 * q + i] = T::sum(lower_dct4, cos, upper_dct4, sin);
        s[4 * q - 1 - i] = turned(i, T::difference(upper_dct4, cos, lower_dct4, sin));
    }
}

// Merges the three results. The first few outputs and the last are done outside of the loop.
pub fn merge<T: Number>(q: usize, s: &[T], x: &mut [T])
    requires { (1 ≤ q) × (q ≤ 512) × AllFit T.ops T.Fits s.now × (length s.now ≡ 4 * q) × (length x.old ≡ 4 * q) }
    ensures { x.new ≡ merge_two T.ops q (part 0 (2 * q) s.now) (part (2 * q) (3 * q) s.now) (part (3 * q) (4 * q) s.now) }
{
    x[0] = s[0];
    x[1] = s[2 * q];
    x[2] = s[1];
    for i in 1..q {
        let cos_output = s[2 * q + i];
        let sin_output = turned(i + q + 1, s[4 * q - i]);
        x[4 * i - 1] = cos_output.plus(sin_output);
        x[4 * i] = s[2 * i];
        x[4 * i + 1] = cos_output.minus(sin_output);
        x[4 * i + 2] = s[2 * i + 1];
    }
    x[4 * q - 1] = s[3 * q].negated();
}
