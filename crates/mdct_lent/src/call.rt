// The four public calls of MDCT and IMDCT, and which of them a case is about.
ghost use Rattle.std.specs.Prelude.{◌≡◌, ◌≤◌};
ghost use Rattle.mdct_lent.specs.Calls.{scratch_of, has};

use std::fmt;

#[derive(Clone, Copy, Debug, PartialEq)]
pub enum Transform {
    Mdct,
    Imdct,
}

impl Transform {
    pub const ALL: [Transform; 2] = [Transform::Mdct, Transform::Imdct];
}

#[derive(Clone, Copy, Debug, PartialEq)]
pub enum Way {
    Naive,
    Fast,
}

impl Way {
    pub const ALL: [Way; 2] = [Way::Naive, Way::Fast];

    // How many entries of scratch an accepted call needs. It zeroes them.
    pub fn scratch(self, n: usize) -> usize
        requires { n ≤ 1024 }
        ensures { result ≡ scratch_of self n }
    {
        match self {
            Way::Naive => 0,
            Way::Fast => 2 * n,
        }
    }
}

#[derive(Clone, Copy, Debug, PartialEq)]
pub struct Call {
    pub transform: Transform,
    pub way: Way,
}

impl Call {
    pub const ALL: [Call; 4] = [
        Call {
            transform: Transform::Mdct,
            way: Way::Naive,
        },
        Call {
            transform: Transform::Mdct,
            way: Way::Fast,
        },
        Call {
            transform: Transform::Imdct,
            way: Way::Naive,
        },
        Call {
            transform: Transform::Imdct,
            way: Way::Fast,
        },
    ];
}

#[derive(Clone, Copy, Debug, PartialEq)]
pub enum Calls {
    All,
    Fast,
    Mdct,
    Imdct,
}

impl Calls {
    pub fn has(self, call: Call) -> bool
        ensures { result ≡ has self call }
    {
        match self {
            Calls::All => true,
            Calls::Fast => call.way == Way::Fast,
            Calls::Mdct => call.transform == Transform::Mdct,
            Calls::Imdct => call.transform == Transform::Imdct,
        }
    }
}

// What a line says of them after it has said all else: nothing where they are all.
impl fmt::Display for Calls {
    fn fmt<W: fmt::Write>(&self, f: &mut fmt::Formatter<W>) -> fmt::Result {
        f.write_str(match self {
            Calls::All => "",
            Calls::Fast => ", fast",
            Calls::Mdct => ", MDCT",
            Calls::Imdct => ", IMDCT",
        })
    }
}
