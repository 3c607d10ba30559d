// How calls in place are tested, whichever they are: one call and what it should answer and leave (`call`), what a call is told and lent (`case`), and several calls that
// are tested together (`suite`).
#![tactic(auto)]

pub mod call;
pub mod case;
pub mod suite;
