// f64. Each leaf is the naive sum, added up in the order of its terms, with the angles at whole units of the tables.
use crate::Leaves;
use floats::{halve, zero};
use split::twiddles::Tables;

#[tactic(auto, using(crate::proofs::Short::by_terms))]
impl Leaves<f64> for Tables<'_> {
    fn dct2_leaf(self, x: &mut [f64]) {
        let Tables { whole, unit } = self;
        let cosines = whole.cosines;
        let nought = zero();
        match *x {
            [only] => x[0] = nought + only * cosines[0],
            [first, second] => {
                x[0] = nought + first * cosines[0] + second * cosines[0];
                x[1] = nought + first * cosines[unit] + second * cosines[3 * unit];
            }
            _ => unreachable!(),
        }
    }

    fn dst2_leaf(self, x: &mut [f64]) {
        let Tables { whole, unit } = self;
        let sines = whole.sines;
        let nought = zero();
        match *x {
            [only] => x[0] = nought + only * sines[unit],
            [first, second] => {
                x[0] = nought + first * sines[unit] + second * sines[3 * unit];
                x[1] = nought + first * sines[2 * unit] + second * sines[6 * unit];
            }
            _ => unreachable!(),
        }
    }

    // A sum begins with half of the first entry.
    fn dct3_leaf(self, x: &mut [f64]) {
        let Tables { whole, unit } = self;
        let cosines = whole.cosines;
        match *x {
            [only] => x[0] = halve(only),
            [first, second] => {
                let half = halve(first);
                x[0] = half + second * cosines[unit];
                x[1] = half + second * cosines[3 * unit];
            }
            _ => unreachable!(),
        }
    }

    // The last entry is halved.
    fn dst3_leaf(self, x: &mut [f64]) {
        let Tables { whole, unit } = self;
        let sines = whole.sines;
        let nought = zero();
        match *x {
            [only] => x[0] = nought + halve(only) * sines[unit],
            [first, second] => {
                let half = halve(second);
                x[0] = nought + first * sines[unit] + half * sines[2 * unit];
                x[1] = nought + first * sines[3 * unit] + half * sines[6 * unit];
            }
            _ => unreachable!(),
        }
    }
}
