// A recorded file of floats: its words and the floats whose bits they are (`words`), the routines whose answers it records (`routine`), where its cases stand (`file`), and how
// what a call got is compared with it (`compare`).
#![tactic(auto)]

pub mod compare;
pub mod file;
pub mod routine;
pub mod words;
