// Floats as the Rust's generic number has them: its zero, its half and its two.
#![tactic(auto)]

ghost use Rattle.std.specs.Prelude.{◌≡◌};
ghost use Rattle.floats.specs.Arithmetic.{float_zero, float_ops};

pub fn zero() -> f64
    ensures { result ≡ float_zero }
{
    0.0
}

pub fn halve(x: f64) -> f64
    ensures { result ≡ float_ops.halve x }
{
    0.5 * x
}

pub fn double(x: f64) -> f64
    ensures { result ≡ float_ops.double x }
{
    x * 2.0
}
