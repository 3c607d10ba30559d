// Wrong lengths of what is lent, at every N.
ghost use Rattle.std.specs.Prelude.{ℕ, ◌≤◌};

use answers::Refusal;
use counting::cases::at_every_size;
use counting::count::Tally;
use counting::lines::Unchanged;
use mdct_lent::case::{Case, Slice, Wrong};
use mdct_tests::refuse::refused;
use mdct_tests::windows;
use std::io;

// The end of a line.
fn counted<F: Fn(usize) -> Tally>(rt: &impl Print, test: F) -> io::Result<()>
    requires { (n : ℕ) → 2 ≤ n → n ≤ 1024 → F.pre test n }
{
    let tally = at_every_size(2, test);
    let right = Err(Refusal::Length);
    println!(rt; ": {}", Unchanged { tally, right })
}

pub fn all(rt: &impl Print) -> io::Result<()> {
    let reason = Refusal::Length;
    println!(rt; "Lengths, at every N.")?;
    for (slice, wrong) in [
        (Slice::First, Wrong::OneShort),
        (Slice::First, Wrong::OneLong),
        (Slice::Second, Wrong::OneShort),
        (Slice::Second, Wrong::OneLong),
        (Slice::Third, Wrong::OneShort),
        (Slice::Third, Wrong::OneLong),
        (Slice::Window, Wrong::OneShort),
        (Slice::Window, Wrong::OneLong),
        (Slice::Window, Wrong::Empty),
    ] {
        print!(rt; "The {slice} {wrong}")?;
        counted(rt, |n| refused(Case::of_length(slice, wrong, n), reason))?;
    }
    for wrong in [Wrong::OneShort, Wrong::Empty] {
        print!(rt; "Scratch {wrong}, fast")?;
        counted(rt, |n| refused(Case::of_scratch(wrong, n), reason))?;
    }
    for wrong in Wrong::ALL {
        print!(rt; "Calls of windows, {wrong}")?;
        counted(rt, |n| windows::refused(n, wrong.length(2 * n), reason))?;
    }
    Ok(())
}
