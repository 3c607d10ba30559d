// DCT-IV over residues by its defining sum (document 01, "The sums"). The table is lent, and `unit` is how many of its entries make up 1/(8N) of a turn,
// where N is the length of `x` and of `out`.
ghost use Rattle.std.specs.Prelude.{◌≡◌};
ghost use Rattle.sums.specs.Transform.{dct4_sum};
ghost use Rattle.naive_sums.specs.Ready.{Tabled};

use crate::angle_sums::angle_sums;
use crate::circle::Cosines;

#[tactic(auto, using(crate::proofs::Residues::dct4_reads))]
pub fn dct4(table: &[u32], unit: usize, x: &[u32], out: &mut [u32])
    requires { Tabled 8 unit table.now x.now out.old }
    ensures { out.new ≡ dct4_sum x.now }
{
    angle_sums(
        Cosines { powers: table },
        x,
        out,
        0,
        unit,
        2 * unit,
        2 * unit,
        4 * unit,
    );
}
