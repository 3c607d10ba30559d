// What the program that runs MDCT, IMDCT and the calls of windows is made of: calls that should be accepted (`accept`) or refused (`refuse`), and the calls of
// windows (`windows`).
#![tactic(auto)]

pub mod accept;
pub mod refuse;
pub mod windows;
