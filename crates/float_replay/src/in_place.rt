// The ten routines in place, on recorded cases.
ghost use Rattle.std.specs.Prelude.{◌≡◌, ◌*◌, ◌≤◌, length};
ghost use Rattle.float_words.specs.Replayed.{Replayed};

use crate::FOUR_TIMES;
use answers::Refusal;
use counting::count::Tally;
use float_words::compare::{called, recorded};
use float_words::file::{LONGEST, Tables};
use float_words::words::floats_of;

// The words are the buffer before the call and the buffer after it. The tables are lent. Scratch is NaN, which shows in what is made of it.
pub fn fast<F>(n: usize, tables: Tables<'_>, words: &[u64], call: F) -> Tally
where
    F: FnOnce(usize, &[f64], &[f64], &mut [f64], &mut [f64]) -> Result<(), Refusal>,
    requires callable { F.IsAlwaysCallable call }
    requires short { n ≤ 256 }
    requires words { length words.now ≡ 2 * n }
    ensures { Replayed n n result }
{
    let (before, after) = words.split_at(n);
    let mut buffer = floats_of::<LONGEST>(before);
    let mut scratch = [f64::NAN; LONGEST];
    let scratch = &mut scratch[..n];
    let answer = call(n, tables.cosines, tables.sines, &mut buffer, scratch);
    called(answer, recorded(&buffer, after), scratch)
}

// The same with tables of its own, of 4n entries each, which stand before the buffer.
pub fn naive<F>(n: usize, words: &[u64], call: F) -> Tally
where
    F: FnOnce(usize, &[f64], &[f64], &mut [f64], &mut [f64]) -> Result<(), Refusal>,
    requires callable { F.IsAlwaysCallable call }
    requires short { n ≤ 256 }
    requires words { length words.now ≡ 10 * n }
    ensures { Replayed n n result }
{
    let (cosines, words) = words.split_at(4 * n);
    let (sines, words) = words.split_at(4 * n);
    let cosines = floats_of::<FOUR_TIMES>(cosines);
    let sines = floats_of::<FOUR_TIMES>(sines);
    let tables = Tables {
        cosines: &cosines,
        sines: &sines,
    };
    fast(n, tables, words, call)
}
