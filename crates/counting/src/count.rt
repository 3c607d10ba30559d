// How many of something there were, and how many of these were as they should be.
ghost use Rattle.std.specs.Prelude.{◌≡◌, eqb, Some};
ghost use Rattle.answers.specs.Said.{says, said_number};
ghost use Rattle.counting.specs.Added.{Empty, Added, AddedUp};
ghost use Rattle.counting.specs.Counted.{one};
ghost use Rattle.counting.specs.Printed.{count_text};

use answers::Refusal;
use std::fmt;
use std::ops::{Add, AddAssign};

// A count that would pass the largest number stays there. `{}` prints it as "3 of 4".
#[derive(Clone, Copy, Debug, Default, PartialEq)]
pub struct Count {
    pub all: u64,
    pub good: u64,
}

impl Count {
    // Of so many, so many are as they should be. Two numbers, of which a `From` would not say which is which.
    pub fn of(all: usize, good: usize) -> Count
        ensures all { result.all ≡ all }
        ensures good { result.good ≡ good }
    {
        Count {
            all: all as u64,
            good: good as u64,
        }
    }

    // One answer, which should be `right`.
    pub fn of_answer(given: Result<(), Refusal>, right: Result<(), Refusal>) -> Count
        ensures all { result.all ≡ 1 }
        ensures good { result.good ≡ one (eqb (said_number (says given)) (said_number (says right))) }
    {
        Count {
            all: 1,
            good: u64::from(given == right),
        }
    }
}

impl Add for Count {
    type Output = Count;

    ghost add_gives = { Added };

    fn add(self, other: Count) -> Count {
        Count {
            all: self.all.saturating_add(other.all),
            good: self.good.saturating_add(other.good),
        }
    }
}

impl fmt::Display for Count {
    ghost output = { λ count. Some (count_text count) };

    fn fmt<W: fmt::Write>(&self, f: &mut fmt::Formatter<W>) -> fmt::Result {
        write!(f, "{} of {}", self.good, self.all)
    }
}

// What a test counts: the answers of its calls, the outputs that it compared, and the lent entries that it looked at after a call.
#[derive(Clone, Copy, Debug, Default, PartialEq)]
pub struct Tally {
    pub answers: Count,
    pub outputs: Count,
    pub lent: Count,
}

impl Tally {
    // One call: its answer, which should be `right`, and the lent entries that it left.
    pub fn of_call(given: Result<(), Refusal>, right: Result<(), Refusal>, lent: Count) -> Tally
        ensures answer { (result.answers.all ≡ 1) × (result.answers.good ≡ one (eqb (said_number (says given)) (said_number (says right)))) }
        ensures outputs { Empty result.outputs }
        ensures lent { result.lent ≡ lent }
    {
        Tally {
            answers: Count::of_answer(given, right),
            lent,
            ..Tally::default()
        }
    }

    // Lent entries alone. No `From`: a count could as well be one of answers or of outputs.
    pub fn of_lent(lent: Count) -> Tally
        ensures answers { Empty result.answers }
        ensures outputs { Empty result.outputs }
        ensures lent { result.lent ≡ lent }
    {
        Tally {
            lent,
            ..Tally::default()
        }
    }

    // The same calls, and the outputs that were compared after them.
    pub fn with_outputs(self, outputs: Count) -> Tally
        ensures { result ≡ record self { outputs = outputs } }
    {
        Tally { outputs, ..self }
    }
}

impl Add for Tally {
    type Output = Tally;

    ghost add_gives = { AddedUp };

    fn add(self, other: Tally) -> Tally {
        Tally {
            answers: self.answers + other.answers,
            outputs: self.outputs + other.outputs,
            lent: self.lent + other.lent,
        }
    }
}

impl AddAssign for Tally {
    ghost add_assign_gives = { AddedUp };

    fn add_assign(&mut self, other: Tally) {
        *self = *self + other;
    }
}
