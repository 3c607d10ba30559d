// What the tests vary: the size, the place of an entry that is told, and what stands there.
ghost use Rattle.std.specs.Prelude.{◌≡◌, ℕ, ◌≤◌};
ghost use Rattle.counting.specs.Cases.{place_in, number_of};
ghost use Rattle.counting.specs.Sizes.{sizes_from, SumsUp};

use crate::count::Tally;
use std::fmt;

// The sizes that the calls allow. Those of type 4 and of the MDCT begin with the second.
pub const SIZES: [usize; 11] = [1, 2, 4, 8, 16, 32, 64, 128, 256, 512, 1024];

// What a test counts at every size that is no less than the least.
pub fn at_every_size<F: Fn(usize) -> Tally>(least: usize, test: F) -> Tally
    requires { (n : ℕ) → least ≤ n → 1 ≤ n → n ≤ 1024 → F.pre test n }
    ensures { SumsUp (F.post test) (sizes_from least) result }
{
    let mut sum = Tally::default();
    for n in SIZES {
        if least <= n {
            sum += test(n);
        }
    }
    sum
}

// The modulus of the residues.
pub const P: u32 = 998244353;

#[derive(Clone, Copy, Debug, PartialEq)]
pub enum Place {
    First,
    Middle,
    Last,
}

impl Place {
    pub const ALL: [Place; 3] = [Place::First, Place::Middle, Place::Last];

    // The place in a slice of n entries.
    pub fn of(self, n: usize) -> usize
        requires { 1 ≤ n }
        ensures { result ≡ place_in n self }
    {
        match self {
            Place::First => 0,
            Place::Middle => n / 2,
            Place::Last => n - 1,
        }
    }
}

impl fmt::Display for Place {
    fn fmt<W: fmt::Write>(&self, f: &mut fmt::Formatter<W>) -> fmt::Result {
        f.write_str(match self {
            Place::First => "The first",
            Place::Middle => "A middle one",
            Place::Last => "The last",
        })
    }
}

// What stands there: the largest residue, or one of two numbers that are none.
#[derive(Clone, Copy, Debug, PartialEq)]
pub enum Value {
    LargestResidue,
    Modulus,
    LargestNumber,
}

impl From<Value> for u32 {
    ghost from_gives = { λ value number. number ≡ number_of value };

    fn from(value: Value) -> u32 {
        match value {
            Value::LargestResidue => P - 1,
            Value::Modulus => P,
            Value::LargestNumber => u32::MAX,
        }
    }
}

impl fmt::Display for Value {
    fn fmt<W: fmt::Write>(&self, f: &mut fmt::Formatter<W>) -> fmt::Result {
        f.write_str(match self {
            Value::LargestResidue => "p - 1",
            Value::Modulus => "p",
            Value::LargestNumber => "4294967295",
        })
    }
}
