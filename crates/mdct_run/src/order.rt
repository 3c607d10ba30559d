// Several reasons at once: the first of 1, 2, 3 and 4 is given.
use answers::Refusal;
use counting::cases::P;
use counting::entries::Entry;
use counting::lines::Unchanged;
use mdct_lent::call::Calls;
use mdct_lent::case::{Case, Change, Length, Slice};
use mdct_tests::refuse::refused;
use std::io;

pub fn all(rt: &impl Print) -> io::Result<()> {
    let right = Case::of_size(16);
    let p = Entry { place: 3, value: P };
    let one_more = Some(Change::OneMore(3));
    let ones = Some(Change::Ones);
    println!(rt; "Several reasons at once. All else is in order for N = 16.")?;
    for (what, case, reason) in [
        (
            "N = 12, a first slice of 15 with p in it, a window of ones",
            Case {
                n: 12,
                first: Length::of(15),
                told: Some((Slice::First, p)),
                change: ones,
                ..right
            },
            Refusal::Size,
        ),
        (
            "N = 12, a window of 31 with p in it",
            Case {
                n: 12,
                window: Length::of(31),
                told: Some((Slice::Window, p)),
                ..right
            },
            Refusal::Size,
        ),
        (
            "N = 2048, no scratch, an entry of the window one more",
            Case {
                n: 2048,
                scratch: Length::of(0),
                change: one_more,
                ..right
            },
            Refusal::Size,
        ),
        (
            "N = 16, a first slice of 17 with p in it, a window of ones",
            Case {
                first: Length::of(17),
                told: Some((Slice::First, p)),
                change: ones,
                ..right
            },
            Refusal::Length,
        ),
        (
            "N = 16, a window of 33 with p in it",
            Case {
                window: Length::of(33),
                told: Some((Slice::Window, p)),
                ..right
            },
            Refusal::Length,
        ),
        (
            "N = 16, scratch of 31, p in the second slice, an entry of the window one more, fast",
            Case {
                scratch: Length::of(31),
                told: Some((Slice::Second, p)),
                change: one_more,
                calls: Calls::Fast,
                ..right
            },
            Refusal::Length,
        ),
        (
            "N = 16, p in the first slice, an entry of the window one more",
            Case {
                told: Some((Slice::First, p)),
                change: one_more,
                ..right
            },
            Refusal::Residue,
        ),
        (
            "N = 16, p in a window of ones",
            Case {
                told: Some((Slice::Window, p)),
                change: ones,
                ..right
            },
            Refusal::Residue,
        ),
        (
            "N = 16, p in the third slice, a window of ones, IMDCT",
            Case {
                told: Some((Slice::Third, p)),
                change: ones,
                calls: Calls::Imdct,
                ..right
            },
            Refusal::Residue,
        ),
        (
            "N = 16, p in the third slice, a window of ones, MDCT",
            Case {
                told: Some((Slice::Third, p)),
                change: ones,
                calls: Calls::Mdct,
                ..right
            },
            Refusal::Window,
        ),
    ] {
        let tally = refused(case, reason);
        let right = Err(reason);
        println!(rt; "{what}: {}", Unchanged { tally, right })?;
    }
    Ok(())
}
