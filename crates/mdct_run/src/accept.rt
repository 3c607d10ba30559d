// Calls that should be accepted, a line for each N: the naive and the fast one on the same entries, and curves there and back.
use crate::lines;
use counting::cases::{Place, SIZES, Value};
use counting::count::Tally;
use mdct_curve::Curve;
use mdct_lent::call::Way;
use mdct_lent::case::{Case, Shape, Slice};
use mdct_tests::accept::accepted;
use std::io;

pub fn agreement(rt: &impl Print) -> io::Result<()> {
    println!(rt;
        "Naive and fast on the same entries, under both windows, p - 1 and 0 among them. Naive has 5 entries of scratch, fast 2N + 5."
    )?;
    for &n in &SIZES[1..] {
        let mut sum = Tally::default();
        for shape in Shape::ALL {
            let case = Case {
                shape,
                ..Case::of_entry(Place::First, Slice::First, Value::LargestResidue, n)
            };
            sum += accepted(5, case);
        }
        println!(rt; "N = {n}: {}", lines::agreed(sum))?;
    }
    Ok(())
}

pub fn curves(rt: &impl Print) -> io::Result<()> {
    println!(rt;
        "Curves of four segments, naive and fast, under both windows: the overlapped IMDCTs of the MDCTs of neighbouring segments."
    )?;
    for &n in &SIZES[1..] {
        let mut sum = Tally::default();
        for way in Way::ALL {
            for shape in Shape::ALL {
                sum += Curve { way, shape, n }.there_and_back();
            }
        }
        println!(rt; "N = {n}: {}", lines::accepted(sum, "samples come back"))?;
    }
    Ok(())
}
