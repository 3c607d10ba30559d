// The eight calls. Each promises, for every input, its answer and what both lent slices then hold, by one definition: `naive_call` or `fast_call` of its routine.
// C lends the two tables side by side. So do these, which test both lengths first; an accepted call makes `Entries` or `Tables` of them.
ghost use Rattle.std.specs.Prelude.{◌≡◌, length};
ghost use Rattle.answers.specs.Said.{says};
ghost use Rattle.ring.specs.Part.{cleared};
ghost use Rattle.sums.specs.Call.{outcome};
ghost use Rattle.algorithms.specs.Naive.{naive_dct2, naive_dst2, naive_dct3, naive_dst3};
ghost use Rattle.algorithms.specs.Fast.{dct2_fast, dst2_fast, dct3_fast, dst3_fast};
ghost use Rattle.floats.specs.Accepted.{NaiveAccepted, FastAccepted};
ghost use Rattle.floats.specs.Arithmetic.{float_zero, float_ops, table_twiddles};
ghost use Rattle.floats.specs.Call.{naive_call, fast_call};
ghost use Rattle.type2and3_plans.specs.Routine.{naive_by, fast_by};

use answers::Refusal;
use naive_sums::circle::Entries;
use places::unit;
use split::twiddles::{Tables, WholeTurn};
use type2and3_plans::{Transform, fast, naive};

// An accepted naive call: an entry of a table is 1/(4n) of a turn.
fn run_naive(
    which: Transform,
    n: usize,
    cosines: &[f64],
    sines: &[f64],
    buffer: &mut [f64],
    scratch: &mut [f64],
)
    requires { NaiveAccepted n (length cosines.now) (length sines.now) (length buffer.old) (length scratch.old) }
    ensures { (buffer.new ≡ naive_by which float_ops (table_twiddles cosines.now sines.now) buffer.old)
        × (scratch.new ≡ cleared float_zero n scratch.old) }
{
    let cosines = Entries { table: cosines };
    let sines = Entries { table: sines };
    naive::in_place(which, cosines, sines, 1, buffer, scratch);
}

// An accepted fast call: a unit is 1/(4n) of a turn.
fn run_fast(
    which: Transform,
    n: usize,
    cosines: &[f64],
    sines: &[f64],
    buffer: &mut [f64],
    scratch: &mut [f64],
)
    requires { FastAccepted 1 n (length cosines.now) (length sines.now) (length buffer.old) (length scratch.old) }
    ensures { (buffer.new ≡ fast_by which float_ops (table_twiddles cosines.now sines.now) buffer.old)
        × (scratch.new ≡ cleared float_zero n scratch.old) }
{
    let unit = 2 * unit(n);
    let whole = &WholeTurn { cosines, sines };
    let by = Tables { whole, unit };
    fast::in_place(which, by, buffer, scratch);
}

// The tests of a naive call, and where they are passed the transform.
#[tactic(auto, using(lending_float::proofs::Accepted::naive_accepted))]
fn call_naive(
    which: Transform,
    n: usize,
    cosines: &[f64],
    sines: &[f64],
    buffer: &mut [f64],
    scratch: &mut [f64],
) -> Result<(), Refusal>
    ensures { outcome (says result) buffer.new scratch.new ≡ naive_call (naive_by which float_ops) n cosines.now sines.now buffer.old scratch.old }
{
    lending_float::naive_answer(n, cosines.len(), sines.len(), buffer.len(), scratch.len())?;
    run_naive(which, n, cosines, sines, buffer, scratch);
    Ok(())
}

// The tests of a fast call, and where they are passed the transform.
#[tactic(auto, using(lending_float::proofs::Accepted::fast_accepted))]
fn call_fast(
    which: Transform,
    n: usize,
    cosines: &[f64],
    sines: &[f64],
    buffer: &mut [f64],
    scratch: &mut [f64],
) -> Result<(), Refusal>
    ensures { outcome (says result) buffer.new scratch.new ≡ fast_call 1 (fast_by which float_ops) n cosines.now sines.now buffer.old scratch.old }
{
    lending_float::fast_answer(
        1,
        n,
        cosines.len(),
        sines.len(),
        buffer.len(),
        scratch.len(),
    )?;
    run_fast(which, n, cosines, sines, buffer, scratch);
    Ok(())
}

// DCT-II term by term.
pub fn dct2_naive(
    n: usize,
    cosines: &[f64],
    sines: &[f64],
    buffer: &mut [f64],
    scratch: &mut [f64],
) -> Result<(), Refusal>
    ensures { outcome (says result) buffer.new scratch.new ≡ naive_call (naive_dct2 float_ops) n cosines.now sines.now buffer.old scratch.old }
{
    call_naive(Transform::Dct2, n, cosines, sines, buffer, scratch)
}

// DCT-II by split radix.
pub fn dct2_fast(
    n: usize,
    cosines: &[f64],
    sines: &[f64],
    buffer: &mut [f64],
    scratch: &mut [f64],
) -> Result<(), Refusal>
    ensures { outcome (says result) buffer.new scratch.new ≡ fast_call 1 (dct2_fast float_ops) n cosines.now sines.now buffer.old scratch.old }
{
    call_fast(Transform::Dct2, n, cosines, sines, buffer, scratch)
}

// DST-II term by term.
pub fn dst2_naive(
    n: usize,
    cosines: &[f64],
    sines: &[f64],
    buffer: &mut [f64],
    scratch: &mut [f64],
) -> Result<(), Refusal>
    ensures { outcome (says result) buffer.new scratch.new ≡ naive_call (naive_dst2 float_ops) n cosines.now sines.now buffer.old scratch.old }
{
    call_naive(Transform::Dst2, n, cosines, sines, buffer, scratch)
}

// DST-II by split radix.
pub fn dst2_fast(
    n: usize,
    cosines: &[f64],
    sines: &[f64],
    buffer: &mut [f64],
    scratch: &mut [f64],
) -> Result<(), Refusal>
    ensures { outcome (says result) buffer.new scratch.new ≡ fast_call 1 (dst2_fast float_ops) n cosines.now sines.now buffer.old scratch.old }
{
    call_fast(Transform::Dst2, n, cosines, sines, buffer, scratch)
}

// DCT-III term by term.
pub fn dct3_naive(
    n: usize,
    cosines: &[f64],
    sines: &[f64],
    buffer: &mut [f64],
    scratch: &mut [f64],
) -> Result<(), Refusal>
    ensures { outcome (says result) buffer.new scratch.new ≡ naive_call (naive_dct3 float_ops) n cosines.now sines.now buffer.old scratch.old }
{
    call_naive(Transform::Dct3, n, cosines, sines, buffer, scratch)
}

// DCT-III by split radix.
pub fn dct3_fast(
    n: usize,
    cosines: &[f64],
    sines: &[f64],
    buffer: &mut [f64],
    scratch: &mut [f64],
) -> Result<(), Refusal>
    ensures { outcome (says result) buffer.new scratch.new ≡ fast_call 1 (dct3_fast float_ops) n cosines.now sines.now buffer.old scratch.old }
{
    call_fast(Transform::Dct3, n, cosines, sines, buffer, scratch)
}

// DST-III term by term.
pub fn dst3_naive(
    n: usize,
    cosines: &[f64],
    sines: &[f64],
    buffer: &mut [f64],
    scratch: &mut [f64],
) -> Result<(), Refusal>
    ensures { outcome (says result) buffer.new scratch.new ≡ naive_call (naive_dst3 float_ops) n cosines.now sines.now buffer.old scratch.old }
{
    call_naive(Transform::Dst3, n, cosines, sines, buffer, scratch)
}

// DST-III by split radix.
pub fn dst3_fast(
    n: usize,
    cosines: &[f64],
    sines: &[f64],
    buffer: &mut [f64],
    scratch: &mut [f64],
) -> Result<(), Refusal>
    ensures { outcome (says result) buffer.new scratch.new ≡ fast_call 1 (dst3_fast float_ops) n cosines.now sines.now buffer.old scratch.old }
{
    call_fast(Transform::Dst3, n, cosines, sines, buffer, scratch)
}
