// What is lent to the calls of windows, MDCT and IMDCT where a program runs them: which calls there are (`call`), what a case says of them (`case`), and what they are lent and
// should leave (`lent`).
#![tactic(auto)]

pub mod call;
pub mod case;
pub mod lent;
