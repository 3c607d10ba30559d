// The defining sums of types 2 and 3 over residues, from one slice into another, with a lent table of powers; `unit` of its entries make up 1/(4N) of a turn.
ghost use Rattle.std.specs.Prelude.{◌≡◌};
ghost use Rattle.sums.specs.Transform.{dct2_sum, dst2_sum, dct3_sum, dst3_sum};
ghost use Rattle.naive_sums.specs.Ready.{Tabled};

use naive_sums::circle::{Cosines, Sines};
use naive_sums::type2and3_naive;

#[tactic(auto, using(naive_sums::proofs::Residues::dct2_reads))]
pub fn dct2(powers: &[u32], unit: usize, x: &[u32], out: &mut [u32])
    requires { Tabled 4 unit powers.now x.now out.old }
    ensures { out.new ≡ dct2_sum x.now }
{
    type2and3_naive::dct2(Cosines { powers }, unit, x, out);
}

#[tactic(auto, using(naive_sums::proofs::Residues::dst2_reads))]
pub fn dst2(powers: &[u32], unit: usize, x: &[u32], out: &mut [u32])
    requires { Tabled 4 unit powers.now x.now out.old }
    ensures { out.new ≡ dst2_sum x.now }
{
    type2and3_naive::dst2(Sines { powers }, unit, x, out);
}

#[tactic(auto, using(naive_sums::proofs::Residues::dct3_reads))]
pub fn dct3(powers: &[u32], unit: usize, x: &[u32], out: &mut [u32])
    requires { Tabled 4 unit powers.now x.now out.old }
    ensures { out.new ≡ dct3_sum x.now }
{
    type2and3_naive::dct3(Cosines { powers }, unit, x, out);
}

#[tactic(auto, using(naive_sums::proofs::Residues::dst3_reads))]
pub fn dst3(powers: &[u32], unit: usize, x: &[u32], out: &mut [u32])
    requires { Tabled 4 unit powers.now x.now out.old }
    ensures { out.new ≡ dst3_sum x.now }
{
    type2and3_naive::dst3(Sines { powers }, unit, x, out);
}
