// The numbers that the algorithms are written over, as the Rust's are over its generic number: residues, kept below p in a u32 (`residues`), and f64 (`floating`).
#![tactic(auto)]

ghost use Rattle.std.specs.Prelude.{◌≡◌, ◌≤◌, length};
ghost use Rattle.ring.specs.Part.{cleared, copied};
ghost use Rattle.algorithms.specs.Ops.{Ops};
ghost use Rattle.numbers.specs.Closed.{Closed, Plain};

pub mod floating;
pub mod residues;

pub trait Number: Copy {
    // Its arithmetic, over which the definitions of the algorithms are.
    ghost ops: { Ops Self };

    // Which values are numbers: what an operation may be given.
    ghost Fits: { Self → Type 0 };

    fn zero() -> Self
        ensures { result ≡ ops.nought };

    fn plus(self, other: Self) -> Self
        requires { Fits self × Fits other }
        ensures { result ≡ ops.add self other };

    fn minus(self, other: Self) -> Self
        requires { Fits self × Fits other }
        ensures { result ≡ ops.sub self other };

    fn times(self, other: Self) -> Self
        requires { Fits self × Fits other }
        ensures { result ≡ ops.mul self other };

    fn negated(self) -> Self
        requires { Fits self }
        ensures { result ≡ ops.neg self };

    fn doubled(self) -> Self
        requires { Fits self }
        ensures { result ≡ ops.double self };

    fn halved(self) -> Self
        requires { Fits self }
        ensures { result ≡ ops.halve self };

    // self + a·u
    fn added(self, a: Self, u: Self) -> Self
        requires { Fits self × Fits a × Fits u }
        ensures { result ≡ ops.add self (ops.mul a u) };

    // self − a·u
    fn taken(self, a: Self, u: Self) -> Self
        requires { Fits self × Fits a × Fits u }
        ensures { result ≡ ops.sub self (ops.mul a u) };

    // a·u + b·v
    fn sum(a: Self, u: Self, b: Self, v: Self) -> Self
        requires { Fits a × Fits u × Fits b × Fits v }
        ensures { result ≡ ops.add (ops.mul a u) (ops.mul b v) };

    // a·u − b·v
    fn difference(a: Self, u: Self, b: Self, v: Self) -> Self
        requires { Fits a × Fits u × Fits b × Fits v }
        ensures { result ≡ ops.sub (ops.mul a u) (ops.mul b v) };

    // −a·u − b·v
    fn opposite(a: Self, u: Self, b: Self, v: Self) -> Self
        requires { Fits a × Fits u × Fits b × Fits v }
        ensures { result ≡ ops.sub (ops.neg (ops.mul a u)) (ops.mul b v) };

    // What an operation gives is a number, whatever it was given.
    ghost closed: { Closed ops Fits };

    // A clone is the number itself, and never fails.
    ghost plain: { Plain Self.is_infallible Self.is_clone };
}

// Zeroes the first n entries, as every accepted call does to the scratch that it needed.
pub fn clear<T: Number>(s: &mut [T], n: usize)
    requires { n ≤ length s.old }
    ensures { s.new ≡ cleared T.ops.nought n s.old }
{
    s[..n].fill(T::zero());
}

// Copies all of `from` over the first entries of `to`.
pub fn copy<T: Number>(from: &[T], to: &mut [T])
    requires { length from.now ≤ length to.old }
    ensures { to.new ≡ copied from.now to.old }
{
    for i in 0..from.len() {
        to[i] = from[i];
    }
}
