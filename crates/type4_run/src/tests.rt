// What is run, and the lines that say so. N goes over 2, 4, 8, .., 1024 where no size is named.
use crate::transform::Transform;
use crate::twice::back;
use answers::Refusal;
use counting::cases::{P, Place, SIZES, Value};
use counting::count::Tally;
use counting::entries::Entry;
use counting::lines::Accepted;
use in_place_tests::case::Case;
use in_place_tests::suite::Suite;
use std::io;

fn came_back(tally: Tally) -> Accepted<'static> {
    Accepted {
        tally,
        outputs: "outputs are N/2 times the input",
        lent: "entries of scratch are as they should be",
    }
}

pub fn round_trip(rt: &impl Print, suite: &Suite<'_, Transform>) -> io::Result<()> {
    println!(rt;
        "Each call twice, on residues, the first of them p - 1 and a middle one 0. Scratch has N + 5 entries."
    )?;
    for &n in &SIZES[1..] {
        let told = Entry::of(Place::First, Value::LargestResidue, n);
        let tally = back(n, n + 5, told);
        println!(rt; "N = {n}: {}", came_back(tally))?;
    }
    Ok(())
}

// Sizes that are not allowed. All else is in order where slices can be so long.
pub fn sizes(rt: &impl Print, suite: &Suite<'_, Transform>) -> io::Result<()> {
    let right = Err(Refusal::Size);
    println!(rt; "Sizes.")?;
    for case in [
        Case::of_size(0, right).with_scratch(5),
        Case::of_size(1, right),
        Case::of_size(3, right),
        Case::of_size(1023, right),
        Case::of_size(1025, right),
        Case::of_size(2048, right),
        Case::of_size(2048, right).with_size(usize::MAX),
    ] {
        suite.line(rt, &format_args!("N = {}", case.n), case)?;
    }
    Ok(())
}

pub fn residues(rt: &impl Print, suite: &Suite<'_, Transform>) -> io::Result<()> {
    suite.residues(rt)?;
    for place in Place::ALL {
        let tally = suite.at_every_size(|n| {
            let told = Entry::of(place, Value::LargestResidue, n);
            back(n, n, told)
        });
        println!(rt; "{place} is p - 1: {}", came_back(tally))?;
    }
    Ok(())
}

// Several reasons at once: the first of 1, 2 and 3 is given.
pub fn order(rt: &impl Print, suite: &Suite<'_, Transform>) -> io::Result<()> {
    let zero = Entry { place: 3, value: 0 };
    let no_residue = Entry { place: 3, value: P };
    let size = Case::of_size(12, Err(Refusal::Size)).with_entry(no_residue);
    let length = Case::of_size(16, Err(Refusal::Length)).with_entry(no_residue);
    println!(rt; "Several reasons at once.")?;
    for (what, case) in [
        ("N = 12, a buffer of 11 with p in it", size.with_buffer(11)),
        (
            "N = 12, scratch of 11",
            size.with_scratch(11).with_entry(zero),
        ),
        ("N = 12, p in the buffer", size),
        (
            "N = 16, a buffer of 17 with p in it",
            length.with_buffer(17),
        ),
        (
            "N = 16, scratch of 15, p in the buffer",
            length.with_scratch(15),
        ),
    ] {
        suite.line(rt, &what, case)?;
    }
    Ok(())
}
