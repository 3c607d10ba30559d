// type2and3_splitradix.rs: DCT-III and DST-III. A transform of more than two entries takes a step, which calls it on half and quarter lengths, over parts of scratch that are lent
// on one after the other, with the buffer as the inner scratch. From four entries on the sine transform is the cosine transform with signs and order changed around it.
ghost use Rattle.std.specs.Prelude.{◌≡◌};
ghost use Rattle.ring.specs.Part.{over};
ghost use Rattle.algorithms.specs.Fast.{dct3_fast, dst3_fast};
ghost use Rattle.split.specs.Ready.{InPlace, PartInPlace, Step};

use crate::steps;
use leaves::Leaves;
use numbers::Number;
use split::order::{alternate, reverse};

#[cycle(dct3)]
pub fn dct3<T: Number, W: Leaves<T>>(by: W, x: &mut [T], s: &mut [T])
    requires { InPlace T.ops T.Fits W.serves by x.old s.old }
    ensures { x.new ≡ dct3_fast T.ops (W.turn by) x.old }
{
    if x.len() <= 2 {
        by.dct3_leaf(x);
    } else {
        step(by, x.len() / 4, x, s);
    }
}

// Of 4q entries. Not inlined, so that the short transforms, which most calls are for, are done where they are called.
#[inline(never)]
#[cycle(dct3)]
fn step<T: Number, W: Leaves<T>>(by: W, q: usize, x: &mut [T], s: &mut [T])
    requires { Step T.ops T.Fits W.serves by q x.old s.old }
    ensures { x.new ≡ dct3_fast T.ops (W.turn by) x.old }
{
    let half = 2 * q;
    let three = 3 * q;
    let by_half = by.halved(half);
    let by_quarter = by_half.halved(q);
    steps::split(q, x, s);
    dct3(by_half, &mut s[..half], &mut x[..half]);
    dct3(by_quarter, &mut s[half..three], &mut x[..q]);
    dct3(by_quarter, &mut s[three..], &mut x[..q]);
    steps::merge(by, q, s, x);
}

// The part of s from `from` up to `to`, transformed in place.
pub fn dct3_part<T: Number, W: Leaves<T>>(by: W, s: &mut [T], from: usize, to: usize, x: &mut [T])
    requires { PartInPlace T.ops T.Fits W.serves by s.old from to x.old }
    ensures { s.new ≡ over (dct3_fast T.ops (W.turn by)) from to s.old }
{
    dct3(by, &mut s[from..to], &mut x[..to - from]);
}

pub fn dst3<T: Number, W: Leaves<T>>(by: W, x: &mut [T], s: &mut [T])
    requires { InPlace T.ops T.Fits W.serves by x.old s.old }
    ensures { x.new ≡ dst3_fast T.ops (W.turn by) x.old }
{
    if x.len() <= 2 {
        by.dst3_leaf(x);
    } else {
        reverse(x);
        dct3(by, x, s);
        alternate(x);
    }
}

// The same of a part of s.
pub fn dst3_part<T: Number, W: Leaves<T>>(by: W, s: &mut [T], from: usize, to: usize, x: &mut [T])
    requires { PartInPlace T.ops T.Fits W.serves by s.old from to x.old }
    ensures { s.new ≡ over (dst3_fast T.ops (W.turn by)) from to s.old }
{
    dst3(by, &mut s[from..to], &mut x[..to - from]);
}
