// How what was got is compared with what is recorded.
ghost use Rattle.std.specs.Prelude.{◌≡◌, eqb, map, length, replicate};
ghost use Rattle.answers.specs.Said.{says, said_number};
ghost use Rattle.counting.specs.Counted.{one};
ghost use Rattle.floats.specs.Arithmetic.{float_zero};
ghost use Rattle.float_words.specs.Words.{float_of};
ghost use Rattle.float_words.specs.Replayed.{Replayed};

use crate::words::{float_of, same};
use answers::Refusal;
use counting::count::{Count, Tally};

// How many floats were got, and how many of them are recorded. If all, then what was got is what is recorded.
pub fn recorded(got: &[f64], words: &[u64]) -> Count
    requires { length got.now ≡ length words.now }
    ensures all { result.all ≡ length got.now }
    ensures good { result.good ≡ result.all → got.now ≡ map float_of words.now }
{
    let good = got
        .iter()
        .zip(words)
        .filter(|(float, word)| same(**float, float_of(**word)))
        .count();
    Count::of(got.len(), good)
}

// How many entries scratch has, and how many of them are +0.0.
fn cleared(scratch: &[f64]) -> Count
    ensures all { result.all ≡ length scratch.now }
    ensures good { result.good ≡ result.all → scratch.now ≡ replicate (length scratch.now) float_zero }
{
    let good = scratch
        .iter()
        .filter(|entry| same(**entry, floats::zero()))
        .count();
    Count::of(scratch.len(), good)
}

// One call: its answer, which should be no refusal, what was counted of its outputs, and the scratch that it needed.
pub fn called(answer: Result<(), Refusal>, outputs: Count, scratch: &[f64]) -> Tally
    ensures all { Replayed outputs.all (length scratch.now) result }
    ensures answer { result.answers.good ≡ one (eqb (said_number (says answer)) 0) }
    ensures outputs { result.outputs ≡ outputs }
    ensures cleared { result.lent.good ≡ result.lent.all → scratch.now ≡ replicate (length scratch.now) float_zero }
{
    Tally::of_call(answer, Ok(()), cleared(scratch)).with_outputs(outputs)
}
