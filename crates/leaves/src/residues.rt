// Residues. A leaf multiplies by one cosine only, that of an eighth of a turn, which is the first entry of the table. The sine transforms are the cosine transforms with signs
// and order changed around them.
use crate::Leaves;
use residue::arithmetic::{halve, minus, plus, times};
use split::order::{alternate, reverse};
use split::twiddles::Levels;

#[tactic(auto, using(crate::proofs::Sums::as_sums))]
impl Leaves<u32> for Levels<'_> {
    // One entry is its own DCT-II.
    fn dct2_leaf(self, x: &mut [u32]) {
        match *x {
            [_] => {}
            [first, second] => {
                x[0] = plus(first, second);
                x[1] = times(minus(first, second), self.table[0]);
            }
            _ => unreachable!(),
        }
    }

    fn dst2_leaf(self, x: &mut [u32]) {
        alternate(x);
        self.dct2_leaf(x);
        reverse(x);
    }

    // The first entry is halved.
    fn dct3_leaf(self, x: &mut [u32]) {
        match *x {
            [only] => x[0] = halve(only),
            [first, second] => {
                let half = halve(first);
                let turned = times(second, self.table[0]);
                x[0] = plus(half, turned);
                x[1] = minus(half, turned);
            }
            _ => unreachable!(),
        }
    }

    fn dst3_leaf(self, x: &mut [u32]) {
        reverse(x);
        self.dct3_leaf(x);
        alternate(x);
    }
}
