// DCT-IV and DST-IV over f64 as calls that anyone may make (`calls`).
// Each is told its length n, a power of two from 2 on, and is lent two tables of 8,192 entries, a buffer of n and scratch of n or more. It refuses by 1 and 2, in that
// order, and then changes nothing.
#![tactic(auto)]

pub mod calls;
