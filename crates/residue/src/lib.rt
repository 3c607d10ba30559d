// Residues: whole numbers modulo p = 998244353, kept below p in a u32 (document 01, "Two arithmetics"). Their arithmetic, their cosines and sines,
// and signed numbers to and from them.
#![tactic(auto)]

pub mod angle;
pub mod arithmetic;
pub mod signed;
