// type2and3_splitradix.rs: DCT-II and DST-II. A transform of more than two entries takes a step, which calls it on half and quarter lengths, over parts of scratch that are lent
// on one after the other, with the buffer as the inner scratch. From four entries on the sine transform is the cosine transform with signs and order changed around it.
ghost use Rattle.std.specs.Prelude.{◌≡◌};
ghost use Rattle.algorithms.specs.Fast.{dct2_fast, dst2_fast};
ghost use Rattle.split.specs.Ready.{InPlace, Step};

use crate::steps;
use leaves::Leaves;
use numbers::Number;
use split::order::{alternate, reverse};

#[cycle(dct2)]
pub fn dct2<T: Number, W: Leaves<T>>(by: W, x: &mut [T], s: &mut [T])
    requires { InPlace T.ops T.Fits W.serves by x.old s.old }
    ensures { x.new ≡ dct2_fast T.ops (W.turn by) x.old }
{
    if x.len() <= 2 {
        by.dct2_leaf(x);
    } else {
        step(by, x.len() / 4, x, s);
    }
}

// Of 4q entries. Not inlined, so that the short transforms, which most calls are for, are done where they are called.
#[inline(never)]
#[cycle(dct2)]
fn step<T: Number, W: Leaves<T>>(by: W, q: usize, x: &mut [T], s: &mut [T])
    requires { Step T.ops T.Fits W.serves by q x.old s.old }
    ensures { x.new ≡ dct2_fast T.ops (W.turn by) x.old }
{
    let half = 2 * q;
    let three = 3 * q;
    let by_half = by.halved(half);
    let by_quarter = by_half.halved(q);
    steps::split(by, q, x, s);
    dct2(by_half, &mut s[..half], &mut x[..half]);
    dct2(by_quarter, &mut s[half..three], &mut x[..q]);
    dct2(by_quarter, &mut s[three..], &mut x[..q]);
    steps::merge(q, s, x);
}

pub fn dst2<T: Number, W: Leaves<T>>(by: W, x: &mut [T], s: &mut [T])
    requires { InPlace T.ops T.Fits W.serves by x.old s.old }
    ensures { x.new ≡ dst2_fast T.ops (W.turn by) x.old }
{
    if x.len() <= 2 {
        by.dst2_leaf(x);
    } else {
        alternate(x);
        dct2(by, x, s);
        reverse(x);
    }
}
