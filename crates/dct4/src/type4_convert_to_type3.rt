// type4_convert_to_type3.rs: DCT-IV and DST-IV. The buffer is split into scratch, each half of scratch is transformed there with the buffer as the inner scratch, one after
// the other, and the results are merged into the buffer.
ghost use Rattle.std.specs.Prelude.{◌≡◌};
ghost use Rattle.algorithms.specs.Fast.{dct4_fast, dst4_fast};
ghost use Rattle.dct4.specs.Ready.{Ready};

use crate::steps;
use dct3::type2and3_splitradix::{dct3_part, dst3_part};
use leaves::Leaves;
use numbers::Number;

pub fn dct4<T: Number, W: Leaves<T>>(by: W, x: &mut [T], s: &mut [T])
    requires { Ready T.ops T.Fits W.serves by x.old s.old }
    ensures { x.new ≡ dct4_fast T.ops (W.turn by) x.old }
{
    let m = x.len() / 2;
    let inner = by.halved(2 * m).halved(m);
    steps::split_dct4(m, x, s);
    dct3_part(inner, s, 0, m, x);
    dst3_part(inner, s, m, 2 * m, x);
    steps::merge_dct4(by, m, s, x);
}

pub fn dst4<T: Number, W: Leaves<T>>(by: W, x: &mut [T], s: &mut [T])
    requires { Ready T.ops T.Fits W.serves by x.old s.old }
    ensures { x.new ≡ dst4_fast T.ops (W.turn by) x.old }
{
    let m = x.len() / 2;
    let inner = by.halved(2 * m).halved(m);
    steps::split_dst4(m, x, s);
    dst3_part(inner, s, 0, m, x);
    dct3_part(inner, s, m, 2 * m, x);
    steps::merge_dst4(by, m, s, x);
}
