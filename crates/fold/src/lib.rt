// mdct_via_dct4.rs over any numbers: the fold before the DCT-IV of 2g entries, and the spread after it. Half the length, g, is passed down, so that nothing divides.
// The first segment is a, b, the second c, d, each of g entries, under a window of 4g. All are inner functions: what one requires, its caller shows.
#![tactic(auto)]

ghost use Rattle.std.specs.Prelude.{◌≡◌, ◌*◌, length};
ghost use Rattle.ring.specs.Finite.{tab};
ghost use Rattle.algorithms.specs.Fold.{low_fold, high_fold, folded, spread_first, spread_second};
ghost use Rattle.fold.specs.Ready.{Segment};

use numbers::Number;

// −c reversed − d.
fn fold_second<T: Number>(g: usize, second: &[T], window: &[T], out: &mut [T])
    requires { Segment T.ops T.Fits g second.now window.now × (length out.old ≡ g) }
    ensures { out.new ≡ tab g (low_fold T.ops g window.now second.now) }
{
    for i in 0..g {
        out[i] = T::opposite(
            second[g - 1 - i],
            window[3 * g - 1 - i],
            second[g + i],
            window[3 * g + i],
        );
    }
}

// a − b reversed.
fn fold_first<T: Number>(g: usize, first: &[T], window: &[T], out: &mut [T])
    requires { Segment T.ops T.Fits g first.now window.now × (length out.old ≡ g) }
    ensures { out.new ≡ tab g (high_fold T.ops g window.now first.now) }
{
    for t in 0..g {
        out[t] = T::difference(
            first[t],
            window[t],
            first[2 * g - 1 - t],
            window[2 * g - 1 - t],
        );
    }
}

// −c reversed − d into the first half of the output, a − b reversed into the part from its middle on.
#[tactic(auto, unfolding(algorithms::specs::Fold::folded))]
pub fn fold<T: Number>(g: usize, first: &[T], second: &[T], window: &[T], out: &mut [T])
    requires { Segment T.ops T.Fits g first.now window.now × Segment T.ops T.Fits g second.now window.now × (length out.old ≡ 2 * g) }
    ensures { out.new ≡ folded T.ops g window.now first.now second.now }
{
    let (low, high) = out.split_at_mut(g);
    fold_second(g, second, window, low);
    fold_first(g, first, window, high);
}

// The DCT-IV's second half is added to the first output, then reversed and taken away.
fn spread_first<T: Number>(g: usize, d: &[T], window: &[T], out: &mut [T])
    requires { Segment T.ops T.Fits g d.now window.now × Segment T.ops T.Fits g out.old window.now }
    ensures { out.new ≡ spread_first T.ops g window.now d.now out.old }
{
    for t in 0..g {
        out[t] = out[t].added(d[g + t], window[t]);
        out[g + t] = out[g + t].taken(d[2 * g - 1 - t], window[g + t]);
    }
}

// Its first half reversed, then as it is, both taken away from the second output.
fn spread_second<T: Number>(g: usize, d: &[T], window: &[T], out: &mut [T])
    requires { Segment T.ops T.Fits g d.now window.now × Segment T.ops T.Fits g out.old window.now }
    ensures { out.new ≡ spread_second T.ops g window.now d.now out.old }
{
    for t in 0..g {
        out[t] = out[t].taken(d[g - 1 - t], window[2 * g + t]);
        out[g + t] = out[g + t].taken(d[t], window[3 * g + t]);
    }
}

// To what the two outputs hold. Each entry is read once and written once.
pub fn spread<T: Number>(g: usize, d: &[T], window: &[T], first: &mut [T], second: &mut [T])
    requires { Segment T.ops T.Fits g d.now window.now × Segment T.ops T.Fits g first.old window.now × Segment T.ops T.Fits g second.old window.now }
    ensures { (first.new ≡ spread_first T.ops g window.now d.now first.old)
        × (second.new ≡ spread_second T.ops g window.now d.now second.old) }
{
    spread_first(g, d, window, first);
    spread_second(g, d, window, second);
}
