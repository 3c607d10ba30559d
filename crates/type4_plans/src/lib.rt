// DCT-IV and DST-IV over any numbers and over residues, in place, by a DCT-III and a DST-III of half the length (`fast`). It is inner: what it requires, the tests of a call
// have shown.
#![tactic(auto)]

pub mod fast;

// The transforms of type 4.
#[derive(Clone, Copy, Debug, PartialEq, Eq)]
pub enum Transform {
    Dct4,
    Dst4,
}
