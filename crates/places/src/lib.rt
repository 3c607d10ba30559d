// Angles as places in a table that holds a whole turn, for residues and for floats.
#![tactic(auto)]

ghost use Rattle.std.specs.Prelude.{◌≡◌, ◌+◌, ◌*◌, ◌%◌, ◌<◌, ◌≤◌};
ghost use Rattle.places.specs.Doubled.{Doubled};

// Both places are below a turn, so their sum is below two: where a step leads past the end, one whole turn is taken off.
pub fn further(at: usize, more: usize, turn: usize) -> usize
    requires { (at < turn) × ((more < turn) × (turn ≤ 8192)) }
    ensures { result ≡ (at + more) % turn }
{
    let next = at + more;
    if next < turn { next } else { next - turn }
}

// How many entries of a table of 8,192 make up 1/(8n) of a turn: 1024/n. With n = 2^m, which ends in m noughts in base two, that is 1024 shifted by m places.
#[tactic(auto, using(crate::proofs::Shifted::shifted))]
pub fn unit(n: usize) -> usize
    requires { Doubled n }
    ensures { result * n ≡ 1024 }
{
    1024 >> n.trailing_zeros()
}
