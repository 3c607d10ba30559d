// Runs the public calls of windows, MDCT and IMDCT over residues as document 01 asks ("All else is run by a program") and prints what was counted. No count is known beforehand:
// each comes from a call's answer or from a comparison of entries.
#![tactic(auto)]

use std::io;

mod accept;
mod entries;
mod lengths;
mod lines;
mod order;
mod sizes;
mod windows;

fn main(rt: HostRuntime) -> io::Result<()> {
    println!(rt;
        "MDCT and IMDCT over residues, each naive and fast: four calls. N = 2, 4, 8, .., 1024."
    )?;
    accept::agreement(&rt)?;
    accept::curves(&rt)?;
    sizes::all(&rt)?;
    lengths::all(&rt)?;
    entries::all(&rt)?;
    windows::all(&rt)?;
    windows::eight_ones(&rt)?;
    order::all(&rt)
}
