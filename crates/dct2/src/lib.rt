// DCT-II and DST-II by split radix (type2and3_splitradix.rs), over any numbers, in place with scratch of as many entries.
// All are inner functions: what one requires, its caller shows. Nothing is refused here.
#![tactic(auto)]

pub mod steps;
pub mod type2and3_splitradix;
