// The flat and the sine window, as they are and with a change.
ghost use Rattle.std.specs.Prelude.{◌≡◌, ◌*◌, ◌≤◌};

use answers::Refusal;
use counting::cases::{Place, at_every_size};
use counting::lines::Unchanged;
use mdct_lent::case::{Case, Change, Shape};
use mdct_tests::refuse::refused;
use mdct_tests::windows::tested;
use std::io;

// The change of a window, for any N.
#[derive(Clone, Copy, Debug, PartialEq)]
enum Changed {
    Nothing,
    OneMore(Place),
    Ones,
}

// A window with that change.
fn case_of(shape: Shape, changed: Changed, n: usize) -> Case
    requires { (1 ≤ n) × (n ≤ 1024) }
    ensures size { result.n ≡ n }
    ensures lengths { (result.first.entries ≡ n) × (result.second.entries ≡ n) × (result.third.entries ≡ n) × (result.window.entries ≡ 2 * n) × (result.scratch.entries ≡ 2 * n) }
{
    let change = match changed {
        Changed::Nothing => None,
        Changed::OneMore(place) => Some(Change::OneMore(place.of(2 * n))),
        Changed::Ones => Some(Change::Ones),
    };
    Case {
        shape,
        change,
        ..Case::of_size(n)
    }
}

pub fn all(rt: &impl Print) -> io::Result<()> {
    let reason = Refusal::Window;
    let first = Changed::OneMore(Place::First);
    let middle = Changed::OneMore(Place::Middle);
    let last = Changed::OneMore(Place::Last);
    println!(rt; "Windows, at every N.")?;
    for (what, shape, changed, right) in [
        ("the flat window", Shape::Flat, Changed::Nothing, Ok(())),
        ("the sine window", Shape::Sine, Changed::Nothing, Ok(())),
        (
            "the flat window, the first entry one more",
            Shape::Flat,
            first,
            Err(reason),
        ),
        (
            "the sine window, the last entry one more",
            Shape::Sine,
            last,
            Err(reason),
        ),
        ("ones", Shape::Sine, Changed::Ones, Err(reason)),
    ] {
        let tally = at_every_size(2, |n| tested(case_of(shape, changed, n), right));
        println!(rt; "Test of {what}: {}", Unchanged { tally, right })?;
    }
    for (what, shape, changed) in [
        (
            "The flat window, the first entry one more",
            Shape::Flat,
            first,
        ),
        (
            "The flat window, a middle entry one more",
            Shape::Flat,
            middle,
        ),
        (
            "The sine window, the last entry one more",
            Shape::Sine,
            last,
        ),
        ("Ones", Shape::Sine, Changed::Ones),
    ] {
        let tally = at_every_size(2, |n| refused(case_of(shape, changed, n), reason));
        let right = Err(reason);
        println!(rt; "{what}: {}", Unchanged { tally, right })?;
    }
    Ok(())
}

// Document 01's figures (k) and (l): eight times 499122177, which is the flat window for blocks of 4, is accepted, and eight ones are not.
pub fn eight_ones(rt: &impl Print) -> io::Result<()> {
    let right = Ok(());
    let tally = tested(case_of(Shape::Flat, Changed::Nothing, 4), right);
    println!(rt;
        "N = 4, the flat window, eight times 499122177: {}",
        Unchanged { tally, right }
    )?;
    let ones = case_of(Shape::Flat, Changed::Ones, 4);
    let reason = Refusal::Window;
    let right = Err(reason);
    let tally = tested(ones, right) + refused(ones, reason);
    println!(rt; "N = 4, eight ones: {}", Unchanged { tally, right })
}
