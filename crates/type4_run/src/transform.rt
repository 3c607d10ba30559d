// The two public calls.
use answers::Refusal;
use in_place_tests::call::Call;
use type4_residue::calls;

#[derive(Clone, Copy, Debug, PartialEq)]
pub enum Transform {
    Dct4,
    Dst4,
}

impl Transform {
    pub const ALL: [Transform; 2] = [Transform::Dct4, Transform::Dst4];
}

impl Call for Transform {
    fn call(self, n: usize, buffer: &mut [u32], scratch: &mut [u32]) -> Result<(), Refusal> {
        match self {
            Transform::Dct4 => calls::dct4_fast(n, buffer, scratch),
            Transform::Dst4 => calls::dst4_fast(n, buffer, scratch),
        }
    }
}
