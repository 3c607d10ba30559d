// MDCT on recorded cases.
ghost use Rattle.std.specs.Prelude.{◌≡◌, ◌*◌, ◌≤◌, length};
ghost use Rattle.float_words.specs.Replayed.{Replayed};

use crate::{FOUR_TIMES, TWICE};
use answers::Refusal;
use counting::count::Tally;
use float_words::compare::{called, recorded};
use float_words::file::{LONGEST, Tables};
use float_words::words::floats_of;
use mdct_float::calls;

// The words are the two segments, the window and the output. The call is lent the segments, the output, the window and `room` entries of scratch. Output and scratch are NaN,
// which shows in what is made of it.
fn replay<F>(n: usize, room: usize, words: &[u64], call: F) -> Tally
where
    F: FnOnce(&[f64], &[f64], &mut [f64], &[f64], &mut [f64]) -> Result<(), Refusal>,
    requires callable { F.IsAlwaysCallable call }
    requires short { n ≤ 256 }
    requires room { room ≤ 512 }
    requires words { length words.now ≡ 5 * n }
    ensures { Replayed n room result }
{
    let (read, after) = words.split_at(4 * n);
    let read = floats_of::<FOUR_TIMES>(read);
    let (segments, window) = read.split_at(2 * n);
    let (first, second) = segments.split_at(n);
    let mut output = [f64::NAN; LONGEST];
    let output = &mut output[..n];
    let mut scratch = [f64::NAN; TWICE];
    let scratch = &mut scratch[..room];
    let answer = call(first, second, output, window, scratch);
    called(answer, recorded(output, after), scratch)
}

// The naive way needs no scratch. Its cosines, 4n entries, stand before the rest.
pub fn naive(n: usize, words: &[u64]) -> Tally
    requires short { n ≤ 256 }
    requires words { length words.now ≡ 9 * n }
    ensures { Replayed n 0 result }
{
    let (cosines, words) = words.split_at(4 * n);
    let cosines = floats_of::<FOUR_TIMES>(cosines);
    replay(n, 0, words, |first, second, output, window, scratch| {
        calls::mdct_naive(n, &cosines, first, second, output, window, scratch)
    })
}

// The fast way needs 2n entries of scratch. Its tables are lent.
pub fn fast(n: usize, tables: Tables<'_>, words: &[u64]) -> Tally
    requires short { n ≤ 256 }
    requires words { length words.now ≡ 5 * n }
    ensures { Replayed n (2 * n) result }
{
    let Tables { cosines, sines } = tables;
    replay(n, 2 * n, words, |first, second, output, window, scratch| {
        calls::mdct_fast(n, cosines, sines, first, second, output, window, scratch)
    })
}
