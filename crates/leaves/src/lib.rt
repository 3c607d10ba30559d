// The transforms of one and two entries, where split radix ends: over residues without a product that is not needed, over floats the naive sums, as in the Rust, since floats
// tell the difference.
#![tactic(auto)]

ghost use Rattle.std.specs.Prelude.{◌≡◌, ◌≤◌, length};
ghost use Rattle.algorithms.specs.Fast.{dct2_fast, dst2_fast, dct3_fast, dst3_fast};
ghost use Rattle.numbers.specs.Closed.{AllFit};

use numbers::Number;
use split::twiddles::Turns;

pub mod floating;
pub mod residues;

pub trait Leaves<T: Number>: Turns<T> {
    fn dct2_leaf(self, x: &mut [T])
        requires { Self.serves self (length x.old) × AllFit T.ops T.Fits x.old × (length x.old ≤ 2) }
        ensures { x.new ≡ dct2_fast T.ops (Self.turn self) x.old };

    fn dst2_leaf(self, x: &mut [T])
        requires { Self.serves self (length x.old) × AllFit T.ops T.Fits x.old × (length x.old ≤ 2) }
        ensures { x.new ≡ dst2_fast T.ops (Self.turn self) x.old };

    fn dct3_leaf(self, x: &mut [T])
        requires { Self.serves self (length x.old) × AllFit T.ops T.Fits x.old × (length x.old ≤ 2) }
        ensures { x.new ≡ dct3_fast T.ops (Self.turn self) x.old };

    fn dst3_leaf(self, x: &mut [T])
        requires { Self.serves self (length x.old) × AllFit T.ops T.Fits x.old × (length x.old ≤ 2) }
        ensures { x.new ≡ dst3_fast T.ops (Self.turn self) x.old };
}
