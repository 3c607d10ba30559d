// DCT-II, DST-II, DCT-III and DST-III over any numbers and over residues, in place: by their defining sums (`naive`) and by split radix (`fast`).
// All are inner: what they require, the tests of a call have shown.
#![tactic(auto)]

pub mod fast;
pub mod naive;

// The transforms of types 2 and 3.
#[derive(Clone, Copy, Debug, PartialEq, Eq)]
pub enum Transform {
    Dct2,
    Dst2,
    Dct3,
    Dst3,
}
