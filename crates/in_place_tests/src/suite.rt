// Calls that are tested together, and the lines that say what came of it.
ghost use Rattle.std.specs.Prelude.{◌≤◌, ℕ};
ghost use Rattle.counting.specs.Sizes.{sizes_from, SumsUp};

use crate::call::Call;
use crate::case::{Case, WrongLength};
use answers::Refusal;
use counting::cases::{Place, Value, at_every_size};
use counting::count::Tally;
use counting::entries;
use counting::lines::Unchanged;
use std::fmt::Display;
use std::io;

// The sizes that the calls allow begin with `least`.
#[derive(Clone, Copy)]
pub struct Suite<'a, C> {
    pub calls: &'a [C],
    pub least: usize,
}

impl<C: Call> Suite<'_, C> {
    // All calls on what a case says. They should change nothing.
    fn refused(&self, case: Case) -> Tally {
        let mut buffer = entries::zeros(case.buffer);
        let mut before = entries::zeros(case.buffer);
        let mut scratch = entries::zeros(case.scratch);
        entries::fill_two(21, Some(case.entry), &mut buffer, &mut before);
        let mut sum = Tally::default();
        for call in self.calls {
            sum += call.refused(case.n, case.right, &mut buffer, &before, &mut scratch);
        }
        sum
    }

    // What a test counts at every size.
    pub fn at_every_size<F: Fn(usize) -> Tally>(&self, test: F) -> Tally
        requires { (n : ℕ) → 1 ≤ n → n ≤ 1024 → F.pre test n }
        ensures { SumsUp (F.post test) (sizes_from self.now.least) result }
    {
        at_every_size(self.least, test)
    }

    // The line of a case, after the words that say what it is.
    pub fn line(&self, rt: &impl Print, what: &impl Display, case: Case) -> io::Result<()> {
        let tally = self.refused(case);
        let right = case.right;
        println!(rt; "{what}: {}", Unchanged { tally, right })
    }

    // A wrong length of each kind.
    pub fn lengths(&self, rt: &impl Print) -> io::Result<()> {
        let right = Err(Refusal::Length);
        println!(rt; "Lengths, at every N.")?;
        for wrong in WrongLength::ALL {
            let tally = self.at_every_size(|n| self.refused(Case::of_length(wrong, n)));
            println!(rt; "{wrong}: {}", Unchanged { tally, right })?;
        }
        Ok(())
    }

    // An entry that is no residue, at each place.
    pub fn residues(&self, rt: &impl Print) -> io::Result<()> {
        let right = Err(Refusal::Residue);
        println!(rt; "One entry of the buffer, at every N.")?;
        for value in [Value::Modulus, Value::LargestNumber] {
            for place in Place::ALL {
                let tally = self.at_every_size(|n| self.refused(Case::of_entry(place, value, n)));
                println!(rt; "{place} is {value}: {}", Unchanged { tally, right })?;
            }
        }
        Ok(())
    }
}
