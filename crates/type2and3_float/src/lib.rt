// DCT-II, DST-II, DCT-III and DST-III over f64 as calls that anyone may make: term by term and by split radix (`calls`).
// Each is told its length n and is lent a table of cosines and one of sines, a buffer of n entries and scratch of n or more. A naive call takes n from 1 to 1024 and tables of
// 4n entries, a fast one powers of two and tables of 8,192. A call refuses by 1 and 2, in that order, and then changes nothing.
#![tactic(auto)]

pub mod calls;
