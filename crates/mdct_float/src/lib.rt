// MDCT and IMDCT over f64 as calls that anyone may make: term by term and by way of DCT-IV (`calls`). Each is told its length n. An MDCT is lent two segments of n entries,
// an output of n and a window of 2n; an IMDCT an input of n, two outputs of n, to which it adds, and a window of 2n. Windows are not tested. A naive call takes even n from 2 to
// 1024, one table of 4n cosines and no scratch; a fast one powers of two, two tables of 8,192 entries and scratch of 2n. A call refuses by 1 and 2, in that order, and then
// changes nothing.
#![tactic(auto)]

pub mod calls;
mod fast;
mod naive;
