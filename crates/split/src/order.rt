// Changes of sign and of order: with them a sine transform is a cosine transform.
ghost use Rattle.std.specs.Prelude.{◌≡◌};
ghost use Rattle.algorithms.specs.Lists.{turned, alternated, reversed};
ghost use Rattle.numbers.specs.Closed.{AllFit};

use numbers::Number;

// Negated where m is odd.
#[tactic(auto, using(algorithms::proofs::Turned::turned_even, algorithms::proofs::Turned::turned_odd))]
pub fn turned<T: Number>(m: usize, v: T) -> T
    requires { T.Fits v }
    ensures { result ≡ turned T.ops m v }
{
    if m % 2 == 0 { v } else { v.negated() }
}

// Every second entry negated, by its index: pairs that `chunks_exact_mut` lends were tried, and what they leave of the slice was not proved.
pub fn alternate<T: Number>(x: &mut [T])
    requires { AllFit T.ops T.Fits x.old }
    ensures { x.new ≡ alternated T.ops x.old }
{
    for k in 0..x.len() / 2 {
        x[2 * k + 1] = x[2 * k + 1].negated();
    }
}

// From the last entry to the first.
#[tactic(auto, using(crate::proofs::Changes::reverse_is))]
pub fn reverse<T: Number>(x: &mut [T])
    ensures { x.new ≡ reversed T.ops x.old }
{
    x.reverse();
}
