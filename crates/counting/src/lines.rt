// What a line of text says of a tally, after the words that say what was run.
use crate::count::Tally;
use answers::{Refusal, answer_number};
use std::fmt;

// Calls that should be accepted, with what is said of their outputs and of the other lent entries.
#[derive(Clone, Copy, Debug)]
pub struct Accepted<'a> {
    pub tally: Tally,
    pub outputs: &'a str,
    pub lent: &'a str,
}

impl fmt::Display for Accepted<'_> {
    fn fmt<W: fmt::Write>(&self, f: &mut fmt::Formatter<W>) -> fmt::Result {
        let Tally {
            answers,
            outputs,
            lent,
        } = self.tally;
        write!(
            f,
            "{answers} calls answer 0; {outputs} {}; {lent} {}",
            self.outputs, self.lent
        )
    }
}

// Calls that should answer `right` and change nothing.
#[derive(Clone, Copy, Debug)]
pub struct Unchanged {
    pub tally: Tally,
    pub right: Result<(), Refusal>,
}

impl fmt::Display for Unchanged {
    fn fmt<W: fmt::Write>(&self, f: &mut fmt::Formatter<W>) -> fmt::Result {
        let Tally { answers, lent, .. } = self.tally;
        let number = answer_number(self.right);
        write!(
            f,
            "{answers} calls answer {number}; {lent} lent entries are as they were"
        )
    }
}
