// f64: every value is a number, and each operation is rounded once, in the order in which it is written.
ghost use Rattle.std.specs.Prelude.{⊤};
ghost use Rattle.floats.specs.Arithmetic.{float_ops};
ghost use Rattle.numbers.specs.Laws.{floats_closed};

use crate::Number;

impl Number for f64 {
    ghost ops = { float_ops };

    ghost Fits = { λ _. ⊤ };

    ghost closed = { floats_closed };

    ghost plain = { record { always = λ a. tt; same = λ a b is. is } };

    fn zero() -> f64 {
        floats::zero()
    }

    fn plus(self, other: f64) -> f64 {
        self + other
    }

    fn minus(self, other: f64) -> f64 {
        self - other
    }

    fn times(self, other: f64) -> f64 {
        self * other
    }

    fn negated(self) -> f64 {
        -self
    }

    fn doubled(self) -> f64 {
        floats::double(self)
    }

    fn halved(self) -> f64 {
        floats::halve(self)
    }

    fn added(self, a: f64, u: f64) -> f64 {
        self + a * u
    }

    fn taken(self, a: f64, u: f64) -> f64 {
        self - a * u
    }

    fn sum(a: f64, u: f64, b: f64, v: f64) -> f64 {
        a * u + b * v
    }

    fn difference(a: f64, u: f64, b: f64, v: f64) -> f64 {
        a * u - b * v
    }

    fn opposite(a: f64, u: f64, b: f64, v: f64) -> f64 {
        -(a * u) - b * v
    }
}
