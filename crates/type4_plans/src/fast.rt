// type4_convert_to_type3.rs, in place, with the scratch that it needs, which is then cleared: over any numbers (`in_place`), and over residues (`transform`). What is required
// here, the tests of a call have shown.
ghost use Rattle.std.specs.Prelude.{◌≡◌, length};
ghost use Rattle.ring.specs.Part.{cleared};
ghost use Rattle.sums.specs.Transform.{dct4_sum};
ghost use Rattle.lending.specs.Accepted.{Accepted};
ghost use Rattle.dct4.specs.Ready.{Ready};
ghost use Rattle.type4_plans.specs.Routine.{fast_by};
ghost use Rattle.type4_plans.specs.Lent.{Lent};
ghost use Rattle.type4_plans.specs.Sum.{sum_by};

use crate::Transform;
use dct4::type4_convert_to_type3;
use leaves::Leaves;
use numbers::{Number, clear};
use split::twiddles::Levels;

// The transform that is asked for, with scratch of as many entries. A match: with a function from the caller, each call wants a proof that picks its promise.
fn convert<T: Number, W: Leaves<T>>(which: Transform, by: W, x: &mut [T], s: &mut [T])
    requires { Ready T.ops T.Fits W.serves by x.old s.old }
    ensures { x.new ≡ fast_by which T.ops (W.turn by) x.old }
{
    match which {
        Transform::Dct4 => type4_convert_to_type3::dct4(by, x, s),
        Transform::Dst4 => type4_convert_to_type3::dst4(by, x, s),
    }
}

pub fn in_place<T: Number, W: Leaves<T>>(
    which: Transform,
    by: W,
    buffer: &mut [T],
    scratch: &mut [T],
)
    requires { Lent T.ops T.Fits W.serves by buffer.old (length scratch.old) }
    ensures { (buffer.new ≡ fast_by which T.ops (W.turn by) buffer.old) × (scratch.new ≡ cleared T.ops.nought (length buffer.old) scratch.old) }
{
    let n = buffer.len();
    convert(which, by, buffer, &mut scratch[..n]);
    clear(scratch, n);
}

// An accepted call, by the shortest table that serves. A transform of type 4 turns by the angles of one of twice as many entries.
pub fn transform(which: Transform, n: usize, buffer: &mut [u32], scratch: &mut [u32])
    requires { Accepted 2 n buffer.old (length scratch.old) }
    ensures { (buffer.new ≡ sum_by which buffer.old) × (scratch.new ≡ cleared 0 n scratch.old) }
{
    let table = cosines::levels(2 * n);
    in_place(which, Levels { table }, buffer, scratch);
}

// DCT-IV for a caller who clears scratch himself: what its front then holds is not said, and what stands beyond is kept.
pub fn dct4(n: usize, x: &mut [u32], s: &mut [u32])
    requires { Accepted 2 n x.old (length s.old) }
    ensures sum { x.new ≡ dct4_sum x.old }
    ensures beyond { cleared 0 n s.new ≡ cleared 0 n s.old }
{
    let by = Levels {
        table: cosines::levels(2 * n),
    };
    convert(Transform::Dct4, by, x, &mut s[..n]);
}
