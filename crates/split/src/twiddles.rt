// The twiddles of split radix: residues read them from one table of cosines, floats from two tables of a whole turn.
ghost use Rattle.std.specs.Prelude.{◌≡◌, ℕ, ◌*◌, ◌<◌, ◌≤◌};
ghost use Rattle.algorithms.specs.Ops.{Twiddles};
ghost use Rattle.algorithms.specs.Split.{twiddle_cos, twiddle_sin};
ghost use Rattle.algorithms.specs.Residues.{residue_twiddles};
ghost use Rattle.floats.specs.Arithmetic.{table_twiddles};
ghost use Rattle.split.specs.Served.{Served};
ghost use Rattle.split.specs.Tabled.{LevelsOf, TablesOf};
ghost use Rattle.split.specs.Serving.{levels_served, tables_served};

use numbers::Number;

// What a transform turns by. It serves a transform of n entries where the twiddles of all its steps are at hand.
pub trait Turns<T: Number>: Copy {
    // The cosines and sines that it stands for.
    ghost turn: { Self → Twiddles T };

    ghost serves: { Self → ℕ → Type 0 };

    // The cosine of the twiddle i of a step at 4q entries, (2i + 1)/(16q) of a turn.
    fn cos(self, q: usize, i: usize) -> T
        requires { serves self (4 * q) × (i < q) }
        ensures { result ≡ twiddle_cos T.ops (turn self) q i };

    fn sin(self, q: usize, i: usize) -> T
        requires { serves self (4 * q) × (i < q) }
        ensures { result ≡ twiddle_sin T.ops (turn self) q i };

    // The same for a transform of n entries, half as many as before.
    fn halved(self, n: usize) -> Self
        requires { (1 ≤ n) × serves self (2 * n) }
        ensures same { turn result ≡ turn self }
        ensures serves { serves result n };

    ghost served: { Served T.Fits turn serves };
}

// A table of cosines. It holds those at all odd multiples of 1/(16q) of a turn up to a quarter of a turn, one after the other, for each q that is a power of two; the sine is
// the cosine as far from the quarter as the angle from 0. Shorter transforms find theirs in the same table.
#[derive(Clone, Copy)]
pub struct Levels<'a> {
    pub table: &'a [u32],
}

impl Turns<u32> for Levels<'_> {
    ghost turn = { λ _. residue_twiddles };

    ghost serves = { λ by n. LevelsOf n by.table.now };

    ghost served = { levels_served };

    #[tactic(auto, using(crate::proofs::Levels::twiddle_cos_is))]
    fn cos(self, q: usize, i: usize) -> u32 {
        self.table[2 * q - 1 + i]
    }

    #[tactic(auto, using(crate::proofs::Levels::twiddle_sin_is))]
    fn sin(self, q: usize, i: usize) -> u32 {
        self.table[4 * q - 2 - i]
    }

    #[tactic(auto, using(crate::proofs::Levels::levels_half))]
    fn halved(self, _n: usize) -> Self {
        self
    }
}

// A table of cosines and one of sines, each of a whole turn.
#[derive(Clone, Copy)]
pub struct WholeTurn<'a> {
    pub cosines: &'a [f64],
    pub sines: &'a [f64],
}

// Two such tables, of which `unit` entries make up 1/(4n) of a turn at a length of n. They are lent together, so that a transform hands on two words and not five.
#[derive(Clone, Copy)]
pub struct Tables<'a> {
    pub whole: &'a WholeTurn<'a>,
    pub unit: usize,
}

impl Turns<f64> for Tables<'_> {
    ghost turn = { λ by. table_twiddles by.whole.now.cosines.now by.whole.now.sines.now };

    ghost serves = { λ by n. TablesOf by.unit n by.whole.now.cosines.now by.whole.now.sines.now };

    ghost served = { tables_served };

    fn cos(self, q: usize, i: usize) -> f64 {
        self.whole.cosines[(2 * i + 1) * self.unit]
    }

    fn sin(self, q: usize, i: usize) -> f64 {
        self.whole.sines[(2 * i + 1) * self.unit]
    }

    #[tactic(auto, using(crate::proofs::Halves::tables_half))]
    fn halved(self, _n: usize) -> Self {
        Tables {
            unit: 2 * self.unit,
            ..self
        }
    }
}
