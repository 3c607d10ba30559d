// One entry that is p, 4294967295 or p - 1, at every N.
use crate::lines;
use answers::Refusal;
use counting::cases::{Place, Value, at_every_size};
use counting::lines::Unchanged;
use mdct_lent::call::Calls;
use mdct_lent::case::{Case, Slice};
use mdct_tests::accept::accepted;
use mdct_tests::refuse::refused;
use mdct_tests::windows;
use std::io;

// The calls of MDCT and IMDCT, which are accepted, or else refused for a reason.
fn entry(
    rt: &impl Print,
    place: Place,
    slice: Slice,
    value: Value,
    calls: Calls,
    right: Result<(), Refusal>,
) -> io::Result<()> {
    print!(rt; "{place} of the {slice} is {value}{calls}: ")?;
    let case_of = |n| Case {
        calls,
        ..Case::of_entry(place, slice, value, n)
    };
    match right {
        Ok(()) => {
            let tally = at_every_size(2, |n| accepted(0, case_of(n)));
            println!(rt; "{}", lines::agreed(tally))
        }
        Err(reason) => {
            let tally = at_every_size(2, |n| refused(case_of(n), reason));
            println!(rt; "{}", Unchanged { tally, right })
        }
    }
}

// The test of a window.
fn window_entry(
    rt: &impl Print,
    what: &str,
    place: Place,
    value: Value,
    reason: Refusal,
) -> io::Result<()> {
    let right = Err(reason);
    let tally = at_every_size(2, |n| {
        windows::tested(Case::of_entry(place, Slice::Window, value, n), right)
    });
    println!(rt; "Test of a window, {what}: {}", Unchanged { tally, right })
}

pub fn all(rt: &impl Print) -> io::Result<()> {
    use Place::{First, Last, Middle};
    use Value::{LargestNumber, LargestResidue, Modulus};
    let no_residue = Err(Refusal::Residue);
    println!(rt; "One entry, at every N.")?;
    for (place, slice, value, calls, right) in [
        (First, Slice::First, Modulus, Calls::All, no_residue),
        (Middle, Slice::Second, Modulus, Calls::All, no_residue),
        (Last, Slice::Third, Modulus, Calls::Imdct, no_residue),
        (Last, Slice::Third, Modulus, Calls::Mdct, Ok(())),
        (Last, Slice::Window, Modulus, Calls::All, no_residue),
        (Last, Slice::First, LargestNumber, Calls::All, no_residue),
        (First, Slice::Second, LargestNumber, Calls::All, no_residue),
        (
            Middle,
            Slice::Third,
            LargestNumber,
            Calls::Imdct,
            no_residue,
        ),
        (Middle, Slice::Third, LargestNumber, Calls::Mdct, Ok(())),
        (Middle, Slice::Window, LargestNumber, Calls::All, no_residue),
        (Last, Slice::First, LargestResidue, Calls::All, Ok(())),
        (Middle, Slice::Second, LargestResidue, Calls::All, Ok(())),
        (First, Slice::Third, LargestResidue, Calls::All, Ok(())),
        (
            First,
            Slice::Window,
            LargestResidue,
            Calls::All,
            Err(Refusal::Window),
        ),
    ] {
        entry(rt, place, slice, value, calls, right)?;
    }
    for (what, place, value, reason) in [
        ("the first is p", First, Modulus, Refusal::Residue),
        ("the last is p", Last, Modulus, Refusal::Residue),
        (
            "a middle one is p - 1",
            Middle,
            LargestResidue,
            Refusal::Window,
        ),
    ] {
        window_entry(rt, what, place, value, reason)?;
    }
    Ok(())
}
