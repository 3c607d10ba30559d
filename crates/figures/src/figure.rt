// Document 01's twelve figures, as proved code computes them: (a) to (j) are outputs of transforms by their defining sums, (k) and (l)
// the numbers of two windows' answers, where 0 is accepted. Each promises the number that document 01 states.
ghost use Rattle.std.specs.Prelude.{◌≡◌, [], ◌∷◌};
ghost use Rattle.figures.specs.Stated.{stated};

use crate::table::Table;
use answers::answer_number;
use window_residue::test_window;

// DCT-II of 5.
#[tactic(auto, using(crate::proofs::Figures::a_is))]
pub fn a(table: &Table) -> [u32; 1]
    ensures { result ≡ stated 0 }
{
    table.dct2([5])
}

// DCT-III of 1.
#[tactic(auto, using(crate::proofs::Figures::b_is))]
pub fn b(table: &Table) -> [u32; 1]
    ensures { result ≡ stated 1 }
{
    table.dct3([1])
}

// DCT-II of 1, 1.
#[tactic(auto, using(crate::proofs::Figures::c_is))]
pub fn c(table: &Table) -> [u32; 2]
    ensures { result ≡ stated 2 }
{
    table.dct2([1, 1])
}

// DCT-II of 3, 3, 3, 3.
#[tactic(auto, using(crate::proofs::Figures::d_is))]
pub fn d(table: &Table) -> [u32; 4]
    ensures { result ≡ stated 3 }
{
    table.dct2([3, 3, 3, 3])
}

// DCT-III of 2, 0, 0, 0.
#[tactic(auto, using(crate::proofs::Figures::e_is))]
pub fn e(table: &Table) -> [u32; 4]
    ensures { result ≡ stated 4 }
{
    table.dct3([2, 0, 0, 0])
}

// DST-II of 1, −1.
#[tactic(auto, using(crate::proofs::Figures::f_is))]
pub fn f(table: &Table) -> [u32; 2]
    ensures { result ≡ stated 5 }
{
    table.dst2([1, 998244352])
}

// DST-III of 0, 2.
#[tactic(auto, using(crate::proofs::Figures::g_is))]
pub fn g(table: &Table) -> [u32; 2]
    ensures { result ≡ stated 6 }
{
    table.dst3([0, 2])
}

// DCT-III of DCT-II of 1, 2, 3, 4.
#[tactic(auto, using(crate::proofs::Figures::h_is))]
pub fn h(table: &Table) -> [u32; 4]
    ensures { result ≡ stated 7 }
{
    table.dct3(table.dct2([1, 2, 3, 4]))
}

// DCT-IV twice on 1, 2, 3, 4.
#[tactic(auto, using(crate::proofs::Figures::i_is))]
pub fn i(table: &Table) -> [u32; 4]
    ensures { result ≡ stated 8 }
{
    table.dct4(table.dct4([1, 2, 3, 4]))
}

// DCT-IV twice on 1, 0.
#[tactic(auto, using(crate::proofs::Figures::j_is))]
pub fn j(table: &Table) -> [u32; 2]
    ensures { result ≡ stated 9 }
{
    table.dct4(table.dct4([1, 0]))
}

// The answer for a window of eight times 499122177, for blocks of 4.
#[tactic(auto, using(crate::proofs::Figures::k_is))]
pub fn k() -> u32
    ensures { result ∷ [] ≡ stated 10 }
{
    answer_number(test_window(4, &[499122177; 8]))
}

// The answer for a window of eight ones, for blocks of 4.
#[tactic(auto, using(crate::proofs::Figures::l_is))]
pub fn l() -> u32
    ensures { result ∷ [] ≡ stated 11 }
{
    answer_number(test_window(4, &[1; 8]))
}
