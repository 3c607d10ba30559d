// Runs the eight public calls of types 2 and 3 over residues as document 01 asks ("All else is run by a program") and prints what was counted.
// No count is known beforehand: each comes from a call's answer or from a comparison of entries.
#![tactic(auto)]

use crate::transform::Transform;
use in_place_tests::suite::Suite;
use std::io;

mod accept;
mod tests;
mod transform;

fn main(rt: HostRuntime) -> io::Result<()> {
    let suite = Suite {
        calls: &Transform::ALL,
        least: 1,
    };
    println!(rt;
        "DCT-II, DST-II, DCT-III and DST-III over residues, each naive and fast: eight calls. N = 1, 2, 4, .., 1024."
    )?;
    tests::agreement(&rt, &suite)?;
    tests::round_trip(&rt, &suite)?;
    tests::sizes(&rt, &suite)?;
    suite.lengths(&rt)?;
    tests::residues(&rt, &suite)?;
    tests::order(&rt, &suite)
}
