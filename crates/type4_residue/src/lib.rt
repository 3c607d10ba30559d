// DCT-IV and DST-IV over residues as calls that anyone may make (`calls`), and DCT-IV twice (`back`).
// Each is told its length n, from 2 on, and is lent a buffer of n entries and scratch of n or more. It refuses by 1, 2 and 3, in that order, and then changes nothing.
#![tactic(auto)]

pub mod back;
pub mod calls;
