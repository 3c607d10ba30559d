// The two calls. Each promises, for every input, its answer and what both lent slices then hold, by one definition: `fast_call` of its routine.
// C lends the two tables side by side. So do these, which test both lengths first; an accepted call makes `Tables` of them.
ghost use Rattle.std.specs.Prelude.{◌≡◌, ◌≤◌, length};
ghost use Rattle.answers.specs.Said.{says};
ghost use Rattle.ring.specs.Part.{cleared};
ghost use Rattle.sums.specs.Call.{outcome};
ghost use Rattle.algorithms.specs.Fast.{dct4_fast, dst4_fast};
ghost use Rattle.floats.specs.Arithmetic.{float_zero, float_ops, table_twiddles};
ghost use Rattle.floats.specs.Accepted.{FastAccepted};
ghost use Rattle.floats.specs.Call.{fast_call};
ghost use Rattle.type4_plans.specs.Routine.{fast_by};

use answers::Refusal;
use lending_float::fast_answer;
use places::unit;
use split::twiddles::{Tables, WholeTurn};
use type4_plans::{Transform, fast};

// An accepted call: a unit is 1/(8n) of a turn, as a transform of type 4 turns by the angles of one of twice as many entries.
fn run(
    which: Transform,
    n: usize,
    cosines: &[f64],
    sines: &[f64],
    buffer: &mut [f64],
    scratch: &mut [f64],
)
    requires { FastAccepted 2 n (length cosines.now) (length sines.now) (length buffer.old) (length scratch.old) }
    ensures { (buffer.new ≡ fast_by which float_ops (table_twiddles cosines.now sines.now) buffer.old)
        × (scratch.new ≡ cleared float_zero n scratch.old) }
{
    let unit = unit(n);
    let whole = &WholeTurn { cosines, sines };
    let by = Tables { whole, unit };
    fast::in_place(which, by, buffer, scratch);
}

// The tests, and where they are passed the transform.
#[tactic(auto, using(lending_float::proofs::Accepted::fast_accepted))]
fn call(
    which: Transform,
    n: usize,
    cosines: &[f64],
    sines: &[f64],
    buffer: &mut [f64],
    scratch: &mut [f64],
) -> Result<(), Refusal>
    ensures { outcome (says result) buffer.new scratch.new ≡ fast_call 2 (fast_by which float_ops) n cosines.now sines.now buffer.old scratch.old }
{
    fast_answer(
        2,
        n,
        cosines.len(),
        sines.len(),
        buffer.len(),
        scratch.len(),
    )?;
    run(which, n, cosines, sines, buffer, scratch);
    Ok(())
}

// DCT-IV by a DCT-III and a DST-III of half the length.
pub fn dct4_fast(
    n: usize,
    cosines: &[f64],
    sines: &[f64],
    buffer: &mut [f64],
    scratch: &mut [f64],
) -> Result<(), Refusal>
    ensures { outcome (says result) buffer.new scratch.new ≡ fast_call 2 (dct4_fast float_ops) n cosines.now sines.now buffer.old scratch.old }
{
    call(Transform::Dct4, n, cosines, sines, buffer, scratch)
}

// DST-IV by the same two.
pub fn dst4_fast(
    n: usize,
    cosines: &[f64],
    sines: &[f64],
    buffer: &mut [f64],
    scratch: &mut [f64],
) -> Result<(), Refusal>
    ensures { outcome (says result) buffer.new scratch.new ≡ fast_call 2 (dst4_fast float_ops) n cosines.now sines.now buffer.old scratch.old }
{
    call(Transform::Dst4, n, cosines, sines, buffer, scratch)
}
