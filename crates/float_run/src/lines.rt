// What is replayed, and the lines that say so.
use crate::WORDS;
use arrayvec::ArrayVec;
use counting::count::Tally;
use counting::lines::Accepted;
use float_replay::cases;
use float_words::file;
use float_words::file::{TABLES, TURN, Tables};
use float_words::routine::Routine;
use float_words::words::push_words;
use std::io;
use std::io::Print;

// All cases of each routine, a line for each.
fn routines(rt: &impl Print, words: &[u64], tables: Tables<'_>) -> io::Result<Tally> {
    let mut sum = Tally::default();
    for routine in Routine::ALL {
        let tally = cases::replay_all(routine, words, tables);
        let counts = Accepted {
            tally,
            outputs: "words are the recorded ones",
            lent: "entries of scratch are zero",
        };
        println!(rt; "{routine}: {counts}")?;
        sum += tally;
    }
    Ok(sum)
}

// The words that were compared, and all that was not as it should be.
fn total(rt: &impl Print, sum: Tally) -> io::Result<()> {
    let all = sum.answers + sum.outputs + sum.lent;
    let words = sum.outputs.all;
    let differences = all.all.saturating_sub(all.good);
    println!(rt; "words {words} differences {differences}")
}

pub fn replay(rt: &impl Print, bytes: &[u8]) -> io::Result<()> {
    // Nothing on the heap: a replay can't fail but in what it prints.
    let mut words = ArrayVec::<u64, WORDS>::new();
    push_words(&mut words, bytes);
    let mut cosines = [0.0; TURN];
    let mut sines = [0.0; TURN];
    file::load_tables(&words, &mut cosines, &mut sines);
    let tables = Tables {
        cosines: &cosines,
        sines: &sines,
    };
    let cases = words.get(TABLES..).unwrap_or(&[]);
    let sum = routines(rt, cases, tables)?;
    total(rt, sum)?;
    if bytes.len() % 8 != 0 || !file::whole(cases) {
        println!(rt; "malformed")?;
    }
    Ok(())
}
