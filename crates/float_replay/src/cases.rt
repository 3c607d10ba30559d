// The cases of a recorded file, one after the other.
ghost use Rattle.float_words.specs.Replayed.{Replayed};
ghost use Rattle.float_words.specs.Routine.{outputs_of, scratch_of};

use crate::{imdct, in_place, mdct};
use counting::count::Tally;
use float_words::file::{Case, Cases, Tables};
use float_words::routine::Routine;
use type2and3_float::calls as type2and3;
use type4_float::calls as type4;

// One case. The fast routines are lent the tables of the file.
pub fn replay(case: Case<'_>, tables: Tables<'_>) -> Tally
    ensures { Replayed (outputs_of case.entry.routine case.entry.n) (scratch_of case.entry.routine case.entry.n) result }
{
    let Case { routine, n, words } = case;
    match routine {
        Routine::Dct2Naive => in_place::naive(n, words, type2and3::dct2_naive),
        Routine::Dst2Naive => in_place::naive(n, words, type2and3::dst2_naive),
        Routine::Dct3Naive => in_place::naive(n, words, type2and3::dct3_naive),
        Routine::Dst3Naive => in_place::naive(n, words, type2and3::dst3_naive),
        Routine::Dct2Fast => in_place::fast(n, tables, words, type2and3::dct2_fast),
        Routine::Dst2Fast => in_place::fast(n, tables, words, type2and3::dst2_fast),
        Routine::Dct3Fast => in_place::fast(n, tables, words, type2and3::dct3_fast),
        Routine::Dst3Fast => in_place::fast(n, tables, words, type2and3::dst3_fast),
        Routine::Dct4Fast => in_place::fast(n, tables, words, type4::dct4_fast),
        Routine::Dst4Fast => in_place::fast(n, tables, words, type4::dst4_fast),
        Routine::MdctNaive => mdct::naive(n, words),
        Routine::ImdctNaive => imdct::naive(n, words),
        Routine::MdctFast => mdct::fast(n, tables, words),
        Routine::ImdctFast => imdct::fast(n, tables, words),
    }
}

// All whole cases of a routine at the front of words.
pub fn replay_all(routine: Routine, words: &[u64], tables: Tables<'_>) -> Tally {
    let mut sum = Tally::default();
    for case in (Cases { words }).filter(|case| case.routine == routine) {
        sum += replay(case, tables);
    }
    sum
}
