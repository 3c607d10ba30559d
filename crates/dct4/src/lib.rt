// DCT-IV and DST-IV by a DCT-III and a DST-III of half the length (type4_convert_to_type3.rs), over any numbers, in place with scratch of as many entries.
// All are inner functions: what one requires, its caller shows. Nothing is refused here.
#![tactic(auto)]

pub mod steps;
pub mod type4_convert_to_type3;
