// The eight public calls.
use answers::Refusal;
use in_place_tests::call::Call;
use type2and3_residue::calls;

#[derive(Clone, Copy, Debug, PartialEq)]
pub enum Kind {
    Dct2,
    Dst2,
    Dct3,
    Dst3,
}

impl Kind {
    pub const ALL: [Kind; 4] = [Kind::Dct2, Kind::Dst2, Kind::Dct3, Kind::Dst3];

    // What gives back n/2 times the input.
    pub fn way_back(self) -> Kind {
        match self {
            Kind::Dct2 => Kind::Dct3,
            Kind::Dst2 => Kind::Dst3,
            Kind::Dct3 => Kind::Dct2,
            Kind::Dst3 => Kind::Dst2,
        }
    }
}

#[derive(Clone, Copy, Debug, PartialEq)]
pub enum Plan {
    Naive,
    Fast,
}

#[derive(Clone, Copy, Debug, PartialEq)]
pub struct Transform(pub Kind, pub Plan);

impl Transform {
    // Those of type 2 come first.
    pub const ALL: [Transform; 8] = [
        Transform(Kind::Dct2, Plan::Naive),
        Transform(Kind::Dct2, Plan::Fast),
        Transform(Kind::Dst2, Plan::Naive),
        Transform(Kind::Dst2, Plan::Fast),
        Transform(Kind::Dct3, Plan::Naive),
        Transform(Kind::Dct3, Plan::Fast),
        Transform(Kind::Dst3, Plan::Naive),
        Transform(Kind::Dst3, Plan::Fast),
    ];
}

impl Call for Transform {
    fn call(self, n: usize, buffer: &mut [u32], scratch: &mut [u32]) -> Result<(), Refusal> {
        match self {
            Transform(Kind::Dct2, Plan::Naive) => calls::dct2_naive(n, buffer, scratch),
            Transform(Kind::Dct2, Plan::Fast) => calls::dct2_fast(n, buffer, scratch),
            Transform(Kind::Dst2, Plan::Naive) => calls::dst2_naive(n, buffer, scratch),
            Transform(Kind::Dst2, Plan::Fast) => calls::dst2_fast(n, buffer, scratch),
            Transform(Kind::Dct3, Plan::Naive) => calls::dct3_naive(n, buffer, scratch),
            Transform(Kind::Dct3, Plan::Fast) => calls::dct3_fast(n, buffer, scratch),
            Transform(Kind::Dst3, Plan::Naive) => calls::dst3_naive(n, buffer, scratch),
            Transform(Kind::Dst3, Plan::Fast) => calls::dst3_fast(n, buffer, scratch),
        }
    }
}
