// type2and3_splitradix.rs, in place, with the scratch that it needs, which is then cleared: over any numbers (`in_place`), and over residues (`transform`). What is required
// here, the tests of a call have shown.
ghost use Rattle.std.specs.Prelude.{◌≡◌, length};
ghost use Rattle.ring.specs.Part.{cleared};
ghost use Rattle.lending.specs.Accepted.{Accepted};
ghost use Rattle.split.specs.Ready.{InPlace};
ghost use Rattle.type2and3_plans.specs.Lent.{Lent};
ghost use Rattle.type2and3_plans.specs.Routine.{fast_by};
ghost use Rattle.type2and3_plans.specs.Sum.{sum_by};

use crate::Transform;
use dct2::type2and3_splitradix::{dct2, dst2};
use dct3::type2and3_splitradix::{dct3, dst3};
use leaves::Leaves;
use numbers::{Number, clear};
use split::twiddles::Levels;

// The transform that is asked for, with scratch of as many entries. A match: with a function from the caller, each call wants a proof that picks its promise.
fn split<T: Number, W: Leaves<T>>(which: Transform, by: W, x: &mut [T], s: &mut [T])
    requires { InPlace T.ops T.Fits W.serves by x.old s.old }
    ensures { x.new ≡ fast_by which T.ops (W.turn by) x.old }
{
    match which {
        Transform::Dct2 => dct2(by, x, s),
        Transform::Dst2 => dst2(by, x, s),
        Transform::Dct3 => dct3(by, x, s),
        Transform::Dst3 => dst3(by, x, s),
    }
}

pub fn in_place<T: Number, W: Leaves<T>>(
    which: Transform,
    by: W,
    buffer: &mut [T],
    scratch: &mut [T],
)
    requires { Lent T.ops T.Fits W.serves by buffer.old (length scratch.old) }
    ensures { (buffer.new ≡ fast_by which T.ops (W.turn by) buffer.old) × (scratch.new ≡ cleared T.ops.nought (length buffer.old) scratch.old) }
{
    let n = buffer.len();
    split(which, by, buffer, &mut scratch[..n]);
    clear(scratch, n);
}

// An accepted call, by the shortest table that serves.
pub fn transform(which: Transform, n: usize, buffer: &mut [u32], scratch: &mut [u32])
    requires { Accepted 1 n buffer.old (length scratch.old) }
    ensures { (buffer.new ≡ sum_by which buffer.old) × (scratch.new ≡ cleared 0 n scratch.old) }
{
    let table = cosines::levels(n);
    in_place(which, Levels { table }, buffer, scratch);
}
