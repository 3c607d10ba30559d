// DCT-III by split radix: what stands before and after the three inner transforms. The quarter length q is passed down, so that no loop divides.
ghost use Rattle.std.specs.Prelude.{◌≡◌, ◌*◌, ◌≤◌, length};
ghost use Rattle.ring.specs.Part.{part};
ghost use Rattle.algorithms.specs.Split.{split_three, merge_three};
ghost use Rattle.numbers.specs.Closed.{AllFit};
ghost use Rattle.split.specs.Ready.{Step};

use numbers::Number;
use split::order::turned;
use split::twiddles::Turns;

// Splits the buffer into vectors of half, quarter and quarter length, which follow each other in scratch.
#[tactic(auto, using(crate::proofs::Fit::fit_read, algorithms::proofs::StoresThree::splitting_all))]
pub fn split<T: Number>(q: usize, x: &[T], s: &mut [T])
    requires { (1 ≤ q) × AllFit T.ops T.Fits x.now × (length x.now ≡ 4 * q) × (length s.old ≡ 4 * q) }
    ensures { s.new ≡ split_three T.ops q x.now }
{
    s[0] = x[0];
    s[1] = x[2];
    s[2 * q] = x[1].doubled();
    s[3 * q] = x[4 * q - 1].doubled();
    for i in 1..q {
        let before = x[4 * i - 1];
        let after = x[4 * i + 1];
        s[2 * i] = x[4 * i];
        s[2 * i + 1] = x[4 * i + 2];
        s[2 * q + i] = before.plus(after);
        s[4 * q - i] = before.minus(after);
    }
}

// Merges the three results. The sine value changes its sign by turns.
#[tactic(auto, using(crate::proofs::Fit::fit_read, algorithms::proofs::StepThree::joining_all))]
pub fn merge<T: Number, W: Turns<T>>(by: W, q: usize, s: &[T], x: &mut [T])
    requires { Step T.ops T.Fits W.serves by q s.now x.old }
    ensures { x.new ≡ merge_three T.ops (W.turn by) q (part 0 (2 * q) s.now) (part (2 * q) (3 * q) s.now) (part (3 * q) (4 * q) s.now) }
{
    for i in 0..q {
        let lower_dct3 = s[i];
        let upper_dct3 = s[2 * q - 1 - i];
        let cosine_value = s[2 * q + i];
        let sine_value = turned(i, s[3 * q + i]);
        let cos = by.cos(q, i);
        let sin = by.sin(q, i);
        let lower_dct4 = T::sum(cosine_value, cos, sine_value, sin);
        let upper_dct4 = T::difference(cosine_value, sin, sine_value, cos);
        x[i] = lower_dct3.plus(lower_dct4);
        x[2 * q - 1 - i] = upper_dct3.plus(upper_dct4);
        x[2 * q + i] = upper_dct3.minus(upper_dct4);
        x[4 * q - 1 - i] = lower_dct3.minus(lower_dct4);
    }
}
