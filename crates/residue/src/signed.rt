// Signed numbers as residues, and residues read as signed numbers (document 01, "The tray").
ghost use Rattle.std.specs.Prelude.{◌≡◌, ◌<◌};
ghost use Rattle.sums.specs.Residue.{p};
ghost use Rattle.sums.specs.Signed.{residue_of, signed_of};

// A negative sample s stands for the residue s + p.
pub fn sample(s: i16) -> u32
    ensures { result ≡ residue_of s }
{
    if s < 0 {
        ((s as i32) + 998244353) as u32
    } else {
        s as u32
    }
}

// A residue up to 499122176 is read as itself, a larger one as itself less p.
pub fn signed(r: u32) -> i32
    requires { r < p }
    ensures { result ≡ signed_of r }
{
    if r <= 499122176 {
        r as i32
    } else {
        (r as i32) - 998244353
    }
}
