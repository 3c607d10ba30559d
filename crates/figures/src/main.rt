// Prints document 01's twelve figures, (a) to (l), one to a line.
#![tactic(auto)]

use crate::table::Table;
use std::io;

mod defining;
mod figure;
mod table;

fn main(rt: HostRuntime) -> io::Result<()> {
    let table = Table::new();
    line(&rt, 'a', &figure::a(&table))?;
    line(&rt, 'b', &figure::b(&table))?;
    line(&rt, 'c', &figure::c(&table))?;
    line(&rt, 'd', &figure::d(&table))?;
    line(&rt, 'e', &figure::e(&table))?;
    line(&rt, 'f', &figure::f(&table))?;
    line(&rt, 'g', &figure::g(&table))?;
    line(&rt, 'h', &figure::h(&table))?;
    line(&rt, 'i', &figure::i(&table))?;
    line(&rt, 'j', &figure::j(&table))?;
    line(&rt, 'k', &[figure::k()])?;
    line(&rt, 'l', &[figure::l()])
}

// A figure: its letter and its numbers.
fn line(rt: &impl Print, letter: char, numbers: &[u32]) -> io::Result<()> {
    print!(rt; "({letter})")?;
    for number in numbers {
        print!(rt; " {number}")?;
    }
    println!(rt; "")
}
