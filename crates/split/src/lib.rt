// What split radix and type 4 share over any numbers (type2and3_splitradix.rs, type4_convert_to_type3.rs): changes of sign and of order (`order`), and the twiddles that
// a caller lends (`twiddles`). All are inner functions: what one requires, its caller shows.
#![tactic(auto)]

pub mod order;
pub mod twiddles;
