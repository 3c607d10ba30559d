// MDCT and IMDCT over residues as calls that anyone may make: by their defining sums and by way of DCT-IV (`calls`).
// Each is told its length n. An MDCT is lent two segments of n entries, an output of n and a window of 2n; an IMDCT an input of n, two outputs of n, to which it adds, and a window of 2n.
// The fast calls need scratch of 2n entries, the naive ones none. A call refuses by 1, 2, 3 and 4, in that order, and then changes nothing.
#![tactic(auto)]

pub mod calls;
mod fast;
mod naive;
