// Residues. Two products, or a product and a residue, take one reduction together. Where a residue a is taken away, p − a stands for −a.
ghost use Rattle.std.specs.Prelude.{◌<◌};
ghost use Rattle.sums.specs.Residue.{p};
ghost use Rattle.algorithms.specs.Residues.{residue_ops};
ghost use Rattle.numbers.specs.Laws.{residues_closed};

use crate::Number;
use residue::arithmetic;
use residue::arithmetic::reduce;

impl Number for u32 {
    ghost ops = { residue_ops };

    ghost Fits = { λ a. a < p };

    ghost closed = { residues_closed };

    ghost plain = { record { always = λ a. tt; same = λ a b is. is } };

    fn zero() -> u32 {
        0
    }

    fn plus(self, other: u32) -> u32 {
        arithmetic::plus(self, other)
    }

    fn minus(self, other: u32) -> u32 {
        arithmetic::minus(self, other)
    }

    fn times(self, other: u32) -> u32 {
        arithmetic::times(self, other)
    }

    fn negated(self) -> u32 {
        arithmetic::negate(self)
    }

    fn doubled(self) -> u32 {
        arithmetic::double(self)
    }

    fn halved(self) -> u32 {
        arithmetic::halve(self)
    }

    fn added(self, a: u32, u: u32) -> u32 {
        arithmetic::times_plus(self, a, u)
    }

    #[tactic(auto, using(crate::proofs::OneReduction::taken_once))]
    fn taken(self, a: u32, u: u32) -> u32 {
        reduce((self as u64) + ((998244353 - a) as u64) * (u as u64))
    }

    fn sum(a: u32, u: u32, b: u32, v: u32) -> u32 {
        reduce((a as u64) * (u as u64) + (b as u64) * (v as u64))
    }

    #[tactic(auto, using(crate::proofs::OneReduction::across_once))]
    fn difference(a: u32, u: u32, b: u32, v: u32) -> u32 {
        reduce((a as u64) * (u as u64) + ((998244353 - b) as u64) * (v as u64))
    }

    #[tactic(auto, using(crate::proofs::OneReduction::opposite_once))]
    fn opposite(a: u32, u: u32, b: u32, v: u32) -> u32 {
        reduce(((998244353 - a) as u64) * (u as u64) + ((998244353 - b) as u64) * (v as u64))
    }
}
