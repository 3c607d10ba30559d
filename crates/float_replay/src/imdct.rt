// IMDCT on recorded cases.
ghost use Rattle.std.specs.Prelude.{◌≡◌, ◌*◌, ◌≤◌, length};
ghost use Rattle.float_words.specs.Replayed.{Replayed};

use crate::{FOUR_TIMES, TWICE};
use answers::Refusal;
use counting::count::Tally;
use float_words::compare::{called, recorded};
use float_words::file::{LONGEST, Tables};
use float_words::words::floats_of;
use mdct_float::calls;

// The words are the input, the two outputs before the call, the window, and the two outputs after it. The call is lent the input, the outputs, the window and `room` entries of
// scratch, which are NaN: that shows in what is made of it.
fn replay<F>(n: usize, room: usize, words: &[u64], call: F) -> Tally
where
    F: FnOnce(&[f64], &mut [f64], &mut [f64], &[f64], &mut [f64]) -> Result<(), Refusal>,
    requires callable { F.IsAlwaysCallable call }
    requires short { n ≤ 256 }
    requires room { room ≤ 512 }
    requires words { length words.now ≡ 7 * n }
    ensures { Replayed (2 * n) room result }
{
    let (input, words) = words.split_at(n);
    let (first, words) = words.split_at(n);
    let (second, words) = words.split_at(n);
    let (window, after) = words.split_at(2 * n);
    let (first_after, second_after) = after.split_at(n);
    let input = floats_of::<LONGEST>(input);
    let window = floats_of::<TWICE>(window);
    let mut first = floats_of::<LONGEST>(first);
    let mut second = floats_of::<LONGEST>(second);
    let mut scratch = [f64::NAN; TWICE];
    let scratch = &mut scratch[..room];
    let answer = call(&input, &mut first, &mut second, &window, scratch);
    let outputs = recorded(&first, first_after) + recorded(&second, second_after);
    called(answer, outputs, scratch)
}

// The naive way needs no scratch. Its cosines, 4n entries, stand before the rest.
pub fn naive(n: usize, words: &[u64]) -> Tally
    requires short { n ≤ 256 }
    requires words { length words.now ≡ 11 * n }
    ensures { Replayed (2 * n) 0 result }
{
    let (cosines, words) = words.split_at(4 * n);
    let cosines = floats_of::<FOUR_TIMES>(cosines);
    replay(n, 0, words, |input, first, second, window, scratch| {
        calls::imdct_naive(n, &cosines, input, first, second, window, scratch)
    })
}

// The fast way needs 2n entries of scratch. Its tables are lent.
pub fn fast(n: usize, tables: Tables<'_>, words: &[u64]) -> Tally
    requires short { n ≤ 256 }
    requires words { length words.now ≡ 7 * n }
    ensures { Replayed (2 * n) (2 * n) result }
{
    let Tables { cosines, sines } = tables;
    replay(n, 2 * n, words, |input, first, second, window, scratch| {
        calls::imdct_fast(n, cosines, sines, input, first, second, window, scratch)
    })
}
