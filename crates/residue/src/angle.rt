// The cosine and the sine at k/n of a turn, from a lent table of the n powers of g (document 01, "Two arithmetics").
// No number is divided by the table's length.
ghost use Rattle.std.specs.Prelude.{◌≡◌, ◌%◌, ◌<◌, length};
ghost use Rattle.sums.specs.Residue.{Powers};
ghost use Rattle.sums.specs.Angle.{cos_turn, sin_turn};

use crate::arithmetic::{halve, plus};

// The power −k of g stands as far from the end of the table as the power k from its start.
pub fn cosine(table: &[u32], k: usize) -> u32
    requires { Powers table.now × (k < length table.now) }
    ensures { result ≡ cos_turn k (length table.now) }
{
    let back = if k == 0 { 0 } else { table.len() - k };
    halve(plus(table[k], table[back]))
}

// The sine is the cosine three quarters of a turn further on.
pub fn sine(table: &[u32], k: usize) -> u32
    requires { Powers table.now × ((k < length table.now) × (length table.now % 4 ≡ 0)) }
    ensures { result ≡ sin_turn k (length table.now) }
{
    let at = k + table.len() / 4 * 3;
    if at < table.len() {
        cosine(table, at)
    } else {
        cosine(table, at - table.len())
    }
}
