// Runs the two public calls of type 4 over residues as document 01 asks ("All else is run by a program") and prints what was counted.
// No count is known beforehand: each comes from a call's answer or from a comparison of entries.
#![tactic(auto)]

use crate::transform::Transform;
use in_place_tests::suite::Suite;
use std::io;

mod tests;
mod transform;
mod twice;

fn main(rt: HostRuntime) -> io::Result<()> {
    let suite = Suite {
        calls: &Transform::ALL,
        least: 2,
    };
    println!(rt; "DCT-IV and DST-IV over residues: two calls. N = 2, 4, 8, .., 1024.")?;
    tests::round_trip(&rt, &suite)?;
    tests::sizes(&rt, &suite)?;
    suite.lengths(&rt)?;
    tests::residues(&rt, &suite)?;
    tests::order(&rt, &suite)
}
