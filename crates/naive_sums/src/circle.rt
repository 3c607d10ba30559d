// A table of a whole turn, read by its places: the cosines or the sines that a naive transform multiplies by. Residues have both from one table of the powers of g, floats have a
// table of the one or of the other.
ghost use Rattle.std.specs.Prelude.{◌≡◌, ℕ, ◌+◌, ◌*◌, ◌/◌, ◌%◌, ◌<◌, ◌≤◌, length};
ghost use Rattle.sums.specs.Residue.{Powers};
ghost use Rattle.sums.specs.Angle.{cos_turn, sin_turn};
ghost use Rattle.floats.specs.Arithmetic.{turn_entry};
ghost use Rattle.naive_sums.specs.Circled.{Circled};
ghost use Rattle.naive_sums.specs.Circles.{cosines_circled, sines_circled, odd_cosines_circled, entries_circled};

use numbers::Number;
use residue::angle::{cosine, sine};

pub trait Circle<T: Number>: Copy {
    // What stands at a/b of a turn.
    ghost reads: { Self → ℕ → ℕ → T };

    // How many places make up the turn.
    ghost turn: { Self → ℕ };

    // The table holds what it should.
    ghost sound: { Self → Type 0 };

    fn len(self) -> usize
        ensures { result ≡ turn self };

    fn at(self, place: usize) -> T
        requires { sound self × (place < turn self) }
        ensures { result ≡ reads self place (turn self) };

    ghost circled: { Circled T.Fits reads turn sound };
}

#[derive(Clone, Copy)]
pub struct Cosines<'a> {
    pub powers: &'a [u32],
}

impl Circle<u32> for Cosines<'_> {
    ghost reads = { λ _. cos_turn };

    ghost turn = { λ circle. length circle.powers.now };

    ghost sound = { λ circle. Powers circle.powers.now };

    ghost circled = { cosines_circled };

    fn len(self) -> usize {
        self.powers.len()
    }

    fn at(self, place: usize) -> u32 {
        cosine(self.powers, place)
    }
}

#[derive(Clone, Copy)]
pub struct Sines<'a> {
    pub powers: &'a [u32],
}

impl Circle<u32> for Sines<'_> {
    ghost reads = { λ _. sin_turn };

    ghost turn = { λ circle. length circle.powers.now };

    ghost sound = { λ circle. Powers circle.powers.now × (length circle.powers.now % 4 ≡ 0) };

    ghost circled = { sines_circled };

    fn len(self) -> usize {
        self.powers.len()
    }

    fn at(self, place: usize) -> u32 {
        sine(self.powers, place)
    }
}

// The cosines at odd multiples of `unit` places of the table: as `turn` places of two units each make up a turn, place i stands at (2i + 1)/(2·turn) of it.
#[derive(Clone, Copy)]
pub struct OddCosines<'a> {
    pub powers: &'a [u32],
    pub unit: usize,
    pub turn: usize,
}

impl Circle<u32> for OddCosines<'_> {
    ghost reads = { λ circle a b. cos_turn (2 * (a * (circle.turn / b)) + 1) (2 * circle.turn) };

    ghost turn = { λ circle. circle.turn };

    ghost sound = { λ circle. Powers circle.powers.now × (circle.unit * (2 * circle.turn) ≡ length circle.powers.now) };

    ghost circled = { odd_cosines_circled };

    fn len(self) -> usize {
        self.turn
    }

    fn at(self, place: usize) -> u32 {
        cosine(self.powers, (2 * place + 1) * self.unit)
    }
}

// Cosines or sines, as the table has them.
#[derive(Clone, Copy)]
pub struct Entries<'a> {
    pub table: &'a [f64],
}

#[tactic(auto, using(crate::specs::Circles::turn_entry_at))]
impl Circle<f64> for Entries<'_> {
    ghost reads = { λ circle. turn_entry circle.table.now };

    ghost turn = { λ circle. length circle.table.now };

    ghost sound = { λ circle. (1 ≤ length circle.table.now) × (length circle.table.now ≤ 8192) };

    ghost circled = { entries_circled };

    fn len(self) -> usize {
        self.table.len()
    }

    fn at(self, place: usize) -> f64 {
        self.table[place]
    }
}
