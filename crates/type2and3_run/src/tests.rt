// What is run, and the lines that say so. N goes over 1, 2, 4, .., 1024 where no size is named.
use crate::accept::{agree, back};
use crate::transform::Transform;
use answers::Refusal;
use counting::cases::{P, Place, SIZES, Value};
use counting::count::Tally;
use counting::entries::Entry;
use counting::lines::Accepted;
use in_place_tests::case::Case;
use in_place_tests::suite::Suite;
use std::io;

// The first entry is the largest residue.
const FIRST: Entry = Entry {
    place: 0,
    value: P - 1,
};

fn agreed(tally: Tally) -> Accepted<'static> {
    Accepted {
        tally,
        outputs: "outputs are the same by both",
        lent: "entries of scratch are as they should be",
    }
}

pub fn agreement(rt: &impl Print, suite: &Suite<'_, Transform>) -> io::Result<()> {
    for (what, told) in [
        (
            "Naive and fast on the same residues, as if by chance. Scratch has N + 5 entries.",
            None,
        ),
        (
            "The same, the first of them p - 1 and from N = 2 on a middle one 0.",
            Some(FIRST),
        ),
    ] {
        println!(rt; "{what}")?;
        for n in SIZES {
            let tally = agree(n, n + 5, told);
            println!(rt; "N = {n}: {}", agreed(tally))?;
        }
    }
    Ok(())
}

pub fn round_trip(rt: &impl Print, suite: &Suite<'_, Transform>) -> io::Result<()> {
    println!(rt; "Type 3 of type 2, cosine and sine, naive and fast. Scratch has N entries.")?;
    for n in SIZES {
        let line = Accepted {
            tally: back(n, FIRST),
            outputs: "outputs are N/2 times the input",
            lent: "entries of scratch are as they should be",
        };
        println!(rt; "N = {n}: {line}")?;
    }
    Ok(())
}

// Sizes that are not allowed. All else is in order where slices can be so long.
pub fn sizes(rt: &impl Print, suite: &Suite<'_, Transform>) -> io::Result<()> {
    println!(rt; "Sizes.")?;
    let tally = agree(1024, 1024, Some(FIRST));
    println!(rt; "N = 1024: {}", agreed(tally))?;
    let right = Err(Refusal::Size);
    for case in [
        Case::of_size(2048, right),
        Case::of_size(0, right).with_scratch(5),
        Case::of_size(3, right),
        Case::of_size(1023, right),
        Case::of_size(1025, right),
        Case::of_size(2048, right).with_size(usize::MAX),
    ] {
        suite.line(rt, &format_args!("N = {}", case.n), case)?;
    }
    Ok(())
}

pub fn residues(rt: &impl Print, suite: &Suite<'_, Transform>) -> io::Result<()> {
    suite.residues(rt)?;
    for place in Place::ALL {
        let tally = suite.at_every_size(|n| {
            let told = Entry::of(place, Value::LargestResidue, n);
            agree(n, n, Some(told))
        });
        println!(rt; "{place} is p - 1: {}", agreed(tally))?;
    }
    Ok(())
}

// Several reasons at once: the first of 1, 2 and 3 is given.
pub fn order(rt: &impl Print, suite: &Suite<'_, Transform>) -> io::Result<()> {
    let zero = Entry { place: 3, value: 0 };
    let no_residue = Entry { place: 3, value: P };
    let size = Case::of_size(12, Err(Refusal::Size)).with_entry(no_residue);
    let length = Case::of_size(16, Err(Refusal::Length)).with_entry(no_residue);
    println!(rt; "Several reasons at once.")?;
    for (what, case) in [
        ("N = 12, a buffer of 11 with p in it", size.with_buffer(11)),
        (
            "N = 12, a buffer of 11",
            size.with_buffer(11).with_entry(zero),
        ),
        (
            "N = 12, scratch of 11",
            size.with_scratch(11).with_entry(zero),
        ),
        ("N = 12, p in the buffer", size),
        (
            "N = 16, a buffer of 17 with p in it",
            length.with_buffer(17),
        ),
        (
            "N = 16, scratch of 15, p in the buffer",
            length.with_scratch(15),
        ),
    ] {
        suite.line(rt, &what, case)?;
    }
    Ok(())
}
