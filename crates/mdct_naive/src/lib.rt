// mdct_naive.rs over any numbers: MDCT and IMDCT of n by their sums, in the Rust's order of operations. A circle of 4n places is lent, of which place i is the cosine at
// (2i + 1)/(8n) of a turn. The Rust's twiddle index and stride are the first place and the step here. No scratch is used. What is required here, the tests of a call have shown.
#![tactic(auto)]

ghost use Rattle.std.specs.Prelude.{◌≡◌, ◌+◌, ◌*◌, ◌%◌, ◌<◌, ◌≤◌};
ghost use Rattle.algorithms.specs.Block.{naive_mdct, naive_imdct_first, naive_imdct_second};
ghost use Rattle.naive_sums.specs.Circled.{read_table};
ghost use Rattle.mdct_naive.specs.Ready.{WindowReady, AddReady, MdctReady, ImdctReady};
ghost use Rattle.mdct_naive.specs.Sums.{windowed_sum};

use naive_sums::angle_sums::angle_sum;
use naive_sums::circle::Circle;
use numbers::Number;
use places::further;

// One output's sum over one segment, which goes on from `begin`.
fn windowed_sum<T: Number, C: Circle<T>>(
    circle: C,
    window: &[T],
    x: &[T],
    begin: T,
    first: usize,
    step: usize,
) -> T
    requires { WindowReady T.ops T.Fits C.turn C.sound circle window.now x.now begin first step }
    ensures { result ≡ windowed_sum T.ops (C.reads circle) (C.turn circle) window.now x.now begin first step }
{
    let mut sum = begin;
    let mut at = first;
    for (entry, weight) in x.iter().zip(&window[..x.len()]) {
        sum = sum.added(entry.times(*weight), circle.at(at));
        at = further(at, step, circle.len());
    }
    sum
}

// Where the sum over the second segment begins: n steps of 2k + 1 on from `first`, whole turns of 4n taken off. They are n places where k is even, else 3n.
fn after_segment(n: usize, k: usize, first: usize) -> usize
    requires { (first < 4 * n) × (n ≤ 1024) }
    ensures { result ≡ (first + n * (2 * k + 1)) % (4 * n) }
{
    if k % 2 == 0 {
        further(first, n, 4 * n)
    } else {
        further(first, 3 * n, 4 * n)
    }
}

// Each output is the sum over the first segment, and on from there over the second. From one output to the next the first place grows by n + 1 and the step by 2.
pub fn mdct<T: Number, C: Circle<T>>(
    circle: C,
    n: usize,
    first: &[T],
    second: &[T],
    output: &mut [T],
    window: &[T],
)
    requires { MdctReady T.ops T.Fits C.turn C.sound circle n first.now second.now output.old window.now }
    ensures { output.new ≡ naive_mdct T.ops n (read_table (C.reads circle) (4 * n)) window.now first.now second.now }
{
    let mut place = n / 2;
    for (k, value) in output.iter_mut().enumerate() {
        let step = 2 * k + 1;
        let begun = windowed_sum(circle, window, first, T::zero(), place, step);
        let later = after_segment(n, k, place);
        *value = windowed_sum(circle, &window[n..], second, begun, later, step);
        place = further(place, n + 1, 4 * n);
    }
}

// Adds to the first output.
fn add_first<T: Number, C: Circle<T>>(
    circle: C,
    n: usize,
    input: &[T],
    output: &mut [T],
    window: &[T],
)
    requires { AddReady T.ops T.Fits C.turn C.sound circle n input.now output.old window.now }
    ensures { output.new ≡ naive_imdct_first T.ops n (read_table (C.reads circle) (4 * n)) window.now input.now output.old }
{
    for (k, value) in output.iter_mut().enumerate() {
        let sum = angle_sum(circle, input, T::zero(), n / 2 + k, n + 2 * k + 1);
        *value = value.added(sum, window[k]);
    }
}

// Adds to the second, whose second half takes the places of the mirrored index.
fn add_second<T: Number, C: Circle<T>>(
    circle: C,
    n: usize,
    input: &[T],
    output: &mut [T],
    window: &[T],
)
    requires { AddReady T.ops T.Fits C.turn C.sound circle n input.now output.old window.now }
    ensures { output.new ≡ naive_imdct_second T.ops n (read_table (C.reads circle) (4 * n)) window.now input.now output.old }
{
    for (k, value) in output.iter_mut().enumerate() {
        let mirrored = k.min(n - 1 - k);
        let sum = angle_sum(
            circle,
            input,
            T::zero(),
            2 * n + n / 2 - 1 - mirrored,
            n - 1 - 2 * mirrored,
        );
        *value = value.added(sum, window[n + k]);
    }
}

// What the outputs hold stays, and the sums are added to it.
pub fn imdct<T: Number, C: Circle<T>>(
    circle: C,
    n: usize,
    input: &[T],
    first: &mut [T],
    second: &mut [T],
    window: &[T],
)
    requires { ImdctReady T.ops T.Fits C.turn C.sound circle n input.now first.old second.old window.now }
    ensures { (first.new ≡ naive_imdct_first T.ops n (read_table (C.reads circle) (4 * n)) window.now input.now first.old)
        × (second.new ≡ naive_imdct_second T.ops n (read_table (C.reads circle) (4 * n)) window.now input.now second.old) }
{
    add_first(circle, n, input, first, window);
    add_second(circle, n, input, second, window);
}
