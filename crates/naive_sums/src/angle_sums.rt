// Sums of entries times what stands at evenly spaced places of a turn: the inner loops of the naive transforms, written once.
// A place stays below the turn: where a step leads past the end, one whole turn is taken off, as the Rust does.
ghost use Rattle.std.specs.Prelude.{◌≡◌, length};
ghost use Rattle.naive_sums.specs.AngleSums.{angle_sum, angle_sums};
ghost use Rattle.naive_sums.specs.Ready.{SumReady, SumsReady};

use crate::circle::Circle;
use numbers::Number;
use places::further;

#[tactic(auto, using(places::proofs::Walked::walked_all), unfolding(crate::specs::AngleSums::angle_sum))]
pub fn angle_sum<T: Number, C: Circle<T>>(
    circle: C,
    x: &[T],
    begin: T,
    first: usize,
    step: usize,
) -> T
    requires { SumReady T.ops T.Fits C.turn C.sound circle x.now begin first step }
    ensures { result ≡ angle_sum T.ops (C.reads circle) (C.turn circle) x.now begin first step }
{
    let mut sum = begin;
    let mut at = first;
    for entry in x {
        sum = sum.added(*entry, circle.at(at));
        at = further(at, step, circle.len());
    }
    sum
}

// From one sum to the next the first place grows by `first_more` and the step by `step_more`.
pub fn angle_sums<T: Number, C: Circle<T>>(
    circle: C,
    x: &[T],
    out: &mut [T],
    begin: T,
    first: usize,
    first_more: usize,
    step: usize,
    step_more: usize,
)
    requires { SumsReady T.ops T.Fits C.turn C.sound circle x.now begin first first_more step step_more }
    ensures { out.new ≡ angle_sums T.ops (C.reads circle) (C.turn circle) (length out.old) x.now begin first first_more step step_more }
{
    let turn = circle.len();
    let mut first_now = first;
    let mut step_now = step;
    for sum in out.iter_mut() {
        *sum = angle_sum(circle, x, begin, first_now, step_now);
        first_now = further(first_now, first_more, turn);
        step_now = further(step_now, step_more, turn);
    }
}
