// Replays recorded answers of the Rust's float routines, which are read from standard input, and prints how much of them came out the same. No Rust is at hand.
#![tactic(auto)]

mod input;
mod lines;

use std::io;
use std::io::Input;

// As much of the input as is replayed, in bytes and in words.
const LIMIT: usize = 131072;

const WORDS: usize = LIMIT / 8;

fn main(rt: HostRuntime) -> io::Result<()> {
    // An array, since a `Vec` could fail.
    let mut bytes = [0u8; LIMIT];
    let mut reader = rt.reader();
    let read = input::read_full(&mut reader, &mut bytes)?;
    lines::replay(&rt, &bytes[..read])
}
