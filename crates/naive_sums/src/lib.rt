// The naive transforms, by their sums (document 01, "The sums"; type2and3_naive.rs), over any numbers. All are inner functions: what one requires, its caller shows.
#![tactic(auto)]

pub mod angle_sums;
pub mod circle;
pub mod type2and3_naive;
pub mod type4_sum;
