// Sizes that are not allowed, of all seven calls. All else is in order where slices can be so long.
use answers::Refusal;
use counting::lines::Unchanged;
use mdct_lent::case::Case;
use mdct_tests::refuse::refused;
use mdct_tests::windows;
use std::io;

pub fn all(rt: &impl Print) -> io::Result<()> {
    let reason = Refusal::Size;
    println!(rt; "Sizes: MDCT and IMDCT, naive and fast, and the three calls of windows.")?;
    for case in [
        Case::of_size(0),
        Case::of_size(1),
        Case::of_size(3),
        Case::of_size(1023),
        Case::of_size(1025),
        Case::of_size(2048),
        Case {
            n: usize::MAX,
            ..Case::of_size(2048)
        },
    ] {
        let tally = refused(case, reason) + windows::refused(case.n, case.window.entries, reason);
        let right = Err(reason);
        println!(rt; "N = {}: {}", case.n, Unchanged { tally, right })?;
    }
    Ok(())
}
