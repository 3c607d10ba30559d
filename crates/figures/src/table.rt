// The table of all 8,192 powers of g, and transforms by their defining sums with it. 1/(4N) of a turn is 2048/N of its entries, and 1/(8N) of a turn 1024/N.
ghost use Rattle.std.specs.Prelude.{◌≡◌, ◌*◌, ◌/◌};
ghost use Rattle.sums.specs.Residue.{Residues, powers_table};
ghost use Rattle.sums.specs.Transform.{dct2_sum, dst2_sum, dct3_sum, dst3_sum, dct4_sum};

use crate::defining;
use naive_sums::type4_sum;

#[derive(Drop)]
pub struct Table {
    powers: &'static [u32; 8192],
    ghost rule: { powers.now ≡ powers_table 8192 },
}

impl Table {
    pub fn new() -> Table {
        Table {
            powers: powers::table(),
        }
    }

    #[tactic(auto, using(crate::proofs::Ready::ready, crate::proofs::Ready::residues_dct2))]
    pub fn dct2<const N: usize>(&self, x: [u32; N]) -> [u32; N]
        requires size { 2048 / N * (4 * N) ≡ 8192 }
        requires residues { Residues x }
        ensures sum { result ≡ dct2_sum x.entry }
        ensures residues { Residues result }
    {
        let powers = self.powers;
        let mut out = [0; N];
        defining::dct2(powers, 2048 / N, &x, &mut out);
        out
    }

    #[tactic(auto, using(crate::proofs::Ready::ready))]
    pub fn dst2<const N: usize>(&self, x: [u32; N]) -> [u32; N]
        requires size { 2048 / N * (4 * N) ≡ 8192 }
        requires residues { Residues x }
        ensures { result ≡ dst2_sum x.entry }
    {
        let powers = self.powers;
        let mut out = [0; N];
        defining::dst2(powers, 2048 / N, &x, &mut out);
        out
    }

    #[tactic(auto, using(crate::proofs::Ready::ready))]
    pub fn dct3<const N: usize>(&self, x: [u32; N]) -> [u32; N]
        requires size { 2048 / N * (4 * N) ≡ 8192 }
        requires residues { Residues x }
        ensures { result ≡ dct3_sum x.entry }
    {
        let powers = self.powers;
        let mut out = [0; N];
        defining::dct3(powers, 2048 / N, &x, &mut out);
        out
    }

    #[tactic(auto, using(crate::proofs::Ready::ready))]
    pub fn dst3<const N: usize>(&self, x: [u32; N]) -> [u32; N]
        requires size { 2048 / N * (4 * N) ≡ 8192 }
        requires residues { Residues x }
        ensures { result ≡ dst3_sum x.entry }
    {
        let powers = self.powers;
        let mut out = [0; N];
        defining::dst3(powers, 2048 / N, &x, &mut out);
        out
    }

    #[tactic(auto, using(crate::proofs::Ready::ready, crate::proofs::Ready::residues_dct4))]
    pub fn dct4<const N: usize>(&self, x: [u32; N]) -> [u32; N]
        requires size { 1024 / N * (8 * N) ≡ 8192 }
        requires residues { Residues x }
        ensures sum { result ≡ dct4_sum x.entry }
        ensures residues { Residues result }
    {
        let powers = self.powers;
        let mut out = [0; N];
        type4_sum::dct4(powers, 1024 / N, &x, &mut out);
        out
    }
}
