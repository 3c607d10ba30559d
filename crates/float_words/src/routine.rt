// The routines whose answers a file records.
ghost use Rattle.std.specs.Prelude.{◌≡◌, ◌≤◌, IfOk};
ghost use Rattle.float_words.specs.Routine.{number_of, words_of};

use std::error::Error;
use std::fmt;

#[derive(Clone, Copy, Debug, PartialEq, Eq)]
pub enum Routine {
    Dct2Naive,
    Dst2Naive,
    Dct3Naive,
    Dst3Naive,
    Dct2Fast,
    Dst2Fast,
    Dct3Fast,
    Dst3Fast,
    Dct4Fast,
    Dst4Fast,
    MdctNaive,
    ImdctNaive,
    MdctFast,
    ImdctFast,
}

impl Routine {
    // Each at the place that is its number in a file.
    pub const ALL: [Routine; 14] = [
        Routine::Dct2Naive,
        Routine::Dst2Naive,
        Routine::Dct3Naive,
        Routine::Dst3Naive,
        Routine::Dct2Fast,
        Routine::Dst2Fast,
        Routine::Dct3Fast,
        Routine::Dst3Fast,
        Routine::Dct4Fast,
        Routine::Dst4Fast,
        Routine::MdctNaive,
        Routine::ImdctNaive,
        Routine::MdctFast,
        Routine::ImdctFast,
    ];

    // How many words a case of n entries has after its first two.
    pub fn words(self, n: usize) -> usize
        requires { n ≤ 256 }
        ensures { result ≡ words_of self n }
    {
        match self {
            // Two tables of 4n entries, and the buffer before and after.
            Routine::Dct2Naive | Routine::Dst2Naive | Routine::Dct3Naive | Routine::Dst3Naive => 10
                * n,
            // The buffer before and after.
            Routine::Dct2Fast
            | Routine::Dst2Fast
            | Routine::Dct3Fast
            | Routine::Dst3Fast
            | Routine::Dct4Fast
            | Routine::Dst4Fast => 2 * n,
            // The table, two segments, the window and the output.
            Routine::MdctNaive => 9 * n,
            // The table, the input, two outputs before, the window and these outputs after.
            Routine::ImdctNaive => 11 * n,
            // The same without the table.
            Routine::MdctFast => 5 * n,
            Routine::ImdctFast => 7 * n,
        }
    }
}

// The name of the call.
impl fmt::Display for Routine {
    fn fmt<W: fmt::Write>(&self, f: &mut fmt::Formatter<W>) -> fmt::Result {
        f.write_str(match self {
            Routine::Dct2Naive => "dct2_naive",
            Routine::Dst2Naive => "dst2_naive",
            Routine::Dct3Naive => "dct3_naive",
            Routine::Dst3Naive => "dst3_naive",
            Routine::Dct2Fast => "dct2_fast",
            Routine::Dst2Fast => "dst2_fast",
            Routine::Dct3Fast => "dct3_fast",
            Routine::Dst3Fast => "dst3_fast",
            Routine::Dct4Fast => "dct4_fast",
            Routine::Dst4Fast => "dst4_fast",
            Routine::MdctNaive => "mdct_naive",
            Routine::ImdctNaive => "imdct_naive",
            Routine::MdctFast => "mdct_fast",
            Routine::ImdctFast => "imdct_fast",
        })
    }
}

// A number that is no routine's.
#[derive(Clone, Copy, Debug, PartialEq, Eq)]
pub struct UnknownRoutine(pub u64);

impl fmt::Display for UnknownRoutine {
    fn fmt<W: fmt::Write>(&self, f: &mut fmt::Formatter<W>) -> fmt::Result {
        write!(f, "no routine has the number {}", self.0)
    }
}

impl Error for UnknownRoutine {}

impl TryFrom<u64> for Routine {
    type Error = UnknownRoutine;

    ghost try_from_gives = { λ number result. IfOk result (λ routine. number_of routine ≡ number) };

    fn try_from(number: u64) -> Result<Routine, UnknownRoutine> {
        Routine::ALL
            .iter()
            .copied()
            .find(|routine| *routine as u64 == number)
            .ok_or(UnknownRoutine(number))
    }
}
