// Recorded answers of the Rust's float routines, replayed: the calls on a case (`in_place`, `mdct` and `imdct`), and all cases of a file (`cases`).
#![tactic(auto)]

pub mod cases;
mod imdct;
mod in_place;
mod mdct;

use float_words::file::LONGEST;

// Twice and four times the longest case: as many entries as a window or scratch has at most, and as a table or all that an MDCT reads. What is lent of NaN is a part of an array:
// nothing is allocated, so that a replay can't fail.
const TWICE: usize = 2 * LONGEST;

const FOUR_TIMES: usize = 4 * LONGEST;
