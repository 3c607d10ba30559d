// What the programs that run the calls share: what their tests vary (`cases`), pseudo-random residues, marks, comparisons of entries (`entries`), counts of what was as it
// should be (`count`), and what a line of text says of these (`lines`).
#![tactic(auto)]

pub mod cases;
pub mod count;
pub mod entries;
pub mod lines;
