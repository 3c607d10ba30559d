// DCT-II, DST-II, DCT-III and DST-III over residues as calls that anyone may make: by their defining sums and by split radix (`calls`), and there and back (`back`).
// Each is told its length n and is lent a buffer of n entries and scratch of n or more. It refuses by 1, 2 and 3, in that order, and then changes nothing.
#![tactic(auto)]

pub mod back;
pub mod calls;

// How a transform is worked out.
#[derive(Clone, Copy)]
pub enum Plan {
    Naive,
    Fast,
}
