// type2and3_naive.rs, in place: the buffer is copied to scratch, the sums are written over it, and scratch is cleared. Over any numbers (`in_place`), and over residues
// (`transform`). What is required here, the tests of a call have shown.
ghost use Rattle.std.specs.Prelude.{◌≡◌, ◌≤◌, length};
ghost use Rattle.ring.specs.Part.{cleared};
ghost use Rattle.lending.specs.Accepted.{Accepted};
ghost use Rattle.naive_sums.specs.Ready.{Ready};
ghost use Rattle.type2and3_plans.specs.Routine.{naive_by, twiddles_of};
ghost use Rattle.type2and3_plans.specs.Sum.{sum_by};

use crate::Transform;
use naive_sums::circle::{Circle, Cosines, Sines};
use naive_sums::type2and3_naive;
use numbers::{Number, clear, copy};
use places::unit;

// The sums of the transform that is asked for, from one slice into another. A match, for the reason that `fast::split` has.
fn sums<T: Number, C: Circle<T>, S: Circle<T>>(
    which: Transform,
    cosines: C,
    sines: S,
    unit: usize,
    x: &[T],
    out: &mut [T],
)
    requires { Ready T.ops T.Fits C.turn C.sound cosines 4 unit x.now out.old × Ready T.ops T.Fits S.turn S.sound sines 4 unit x.now out.old }
    ensures { out.new ≡ naive_by which T.ops (twiddles_of (C.reads cosines) (S.reads sines)) x.now }
{
    match which {
        Transform::Dct2 => type2and3_naive::dct2(cosines, unit, x, out),
        Transform::Dst2 => type2and3_naive::dst2(sines, unit, x, out),
        Transform::Dct3 => type2and3_naive::dct3(cosines, unit, x, out),
        Transform::Dst3 => type2and3_naive::dst3(sines, unit, x, out),
    }
}

// `unit` places of either table make up 1/(4n) of a turn, for a buffer of n entries.
pub fn in_place<T: Number, C: Circle<T>, S: Circle<T>>(
    which: Transform,
    cosines: C,
    sines: S,
    unit: usize,
    buffer: &mut [T],
    scratch: &mut [T],
)
    requires { Ready T.ops T.Fits C.turn C.sound cosines 4 unit buffer.old buffer.old × Ready T.ops T.Fits S.turn S.sound sines 4 unit buffer.old buffer.old × (length buffer.old ≤ length scratch.old) }
    ensures { (buffer.new ≡ naive_by which T.ops (twiddles_of (C.reads cosines) (S.reads sines)) buffer.old) × (scratch.new ≡ cleared T.ops.nought (length buffer.old) scratch.old) }
{
    let n = buffer.len();
    copy(buffer, scratch);
    sums(which, cosines, sines, unit, &scratch[..n], buffer);
    clear(scratch, n);
}

// An accepted call, by the table of powers.
pub fn transform(which: Transform, n: usize, buffer: &mut [u32], scratch: &mut [u32])
    requires { Accepted 1 n buffer.old (length scratch.old) }
    ensures { (buffer.new ≡ sum_by which buffer.old) × (scratch.new ≡ cleared 0 n scratch.old) }
{
    let powers = powers::table();
    let cosines = Cosines { powers };
    let sines = Sines { powers };
    in_place(which, cosines, sines, 2 * unit(n), buffer, scratch);
}
