// Where the tables and the cases of a recorded file stand. Its first words are the entries of the cosine table and then of the sine table, of each every eighth: enough for
// types 2 and 3 up to 256 entries, and for type 4 and the fast MDCT up to 128. A case is the routine's number, the length n, and as many words more as the routine has. After
// the last case stands a word whose bits are all set, and then nothing.
ghost use Rattle.std.specs.Prelude.{◌≡◌, ◌+◌, ◌≤◌, ◌++◌, length, IfSome, MatchOption};
ghost use Rattle.std.specs.Iterator.{at_most};
ghost use Rattle.float_words.specs.Routine.{words_of, recorded};
ghost use Rattle.float_words.specs.Words.{eighth_at, eighths};

use crate::routine::Routine;
use crate::words::float_of;

// The words before the first case.
pub const TABLES: usize = 2048;

// The entries of a table, which is a whole turn.
pub const TURN: usize = 8192;

// The longest case.
pub const LONGEST: usize = 256;

// A cosine table and a sine table, which are lent.
#[derive(Clone, Copy)]
pub struct Tables<'a> {
    pub cosines: &'a [f64],
    pub sines: &'a [f64],
}

// One entry of a table of which only every eighth is recorded, in the words from `from` on. The others are zero, and so is one whose word is missing.
fn eighth_at(words: &[u64], from: usize, place: usize) -> f64
    requires { from + place ≤ usize.MAX }
    ensures { result ≡ eighth_at words.now from place }
{
    if place % 8 == 0 {
        float_of(words.get(from + place / 8).copied().unwrap_or(0))
    } else {
        floats::zero()
    }
}

// The whole of such a table.
fn load_table(words: &[u64], from: usize, table: &mut [f64])
    requires whole { length table.old ≡ TURN }
    requires from { from ≤ 1024 }
    ensures { table.new ≡ eighths TURN words.now from }
{
    for (place, entry) in table.iter_mut().enumerate() {
        *entry = eighth_at(words, from, place);
    }
}

// The two tables of a file.
pub fn load_tables(words: &[u64], cosines: &mut [f64], sines: &mut [f64])
    requires cosines { length cosines.old ≡ TURN }
    requires sines { length sines.old ≡ TURN }
    ensures cosines { cosines.new ≡ eighths TURN words.now 0 }
    ensures sines { sines.new ≡ eighths TURN words.now 1024 }
{
    load_table(words, 0, cosines);
    load_table(words, TABLES / 2, sines);
}

// One case: a call of a routine on n entries, and the words that record it.
#[derive(Clone, Copy)]
pub struct Case<'a> {
    pub routine: Routine,
    pub n: usize,
    pub words: &'a [u64],
    ghost short: { n ≤ 256 },
    ghost whole: { length words.now ≡ words_of routine n },
}

// The case that stands first, where a whole one does, and the words after it.
fn first_case(words: &[u64]) -> Option<(Case<'_>, &[u64])>
    ensures { IfSome result (λ p. words.now ≡ recorded p.0.routine p.0.n p.0.words.now ++ p.1.now) }
{
    let [number, length, rest @ ..] = words else {
        return None;
    };
    let routine = Routine::try_from(*number).ok()?;
    let n = usize::try_from(*length).ok().filter(|n| *n <= LONGEST)?;
    let (words, after) = rest.split_at_checked(routine.words(n))?;
    Some((Case { routine, n, words }, after))
}

// The whole cases at the front of words, one after the other.
#[derive(Clone, Copy)]
pub struct Cases<'a> {
    pub words: &'a [u64],
}

impl<'a> Iterator for Cases<'a> {
    type Item = Case<'a>;

    ghost next_gives = { λ s r t. MatchOption r (t.words.now ≡ s.words.now) (λ case. s.words.now ≡ recorded case.routine case.n case.words.now ++ t.words.now) };

    ghost remaining = { λ s. at_most (length s.words.now) };

    fn next(&mut self) -> Option<Case<'a>> {
        let (case, after) = first_case(self.words)?;
        self.words = after;
        Some(case)
    }
}

// Whole cases, then the last word and nothing more.
pub fn whole(words: &[u64]) -> bool {
    let mut cases = Cases { words };
    for _ in &mut cases {}
    matches!(cases.words, [u64::MAX])
}
