// Calls that should be accepted: the naive and the fast one on the same entries.
ghost use Rattle.std.specs.Prelude.{◌≤◌};

use counting::count::Tally;
use counting::entries;
use mdct_lent::call::{Call, Transform, Way};
use mdct_lent::case::Case;
use mdct_lent::lent::Block;

// Both ways of a transform, each lent `more` entries of scratch than it needs.
fn both_ways(transform: Transform, more: usize, case: Case) -> Tally
    requires { (more ≤ 5) × (case.n ≤ 1024) }
{
    let n = case.n;
    let [naive, fast] = Way::ALL.map(|way| Call { transform, way });
    let mut block = Block::of_case(&case);
    block.scratch = entries::zeros(naive.way.scratch(n) + more);
    let first = block.call(naive, n, Ok(()));
    // The fast way begins with what the naive one began with, and should come to what that one came to.
    block.second.swap();
    block.third.swap();
    block.scratch = entries::zeros(fast.way.scratch(n) + more);
    let second = block.call(fast, n, Ok(()));
    (first + second).with_outputs(block.count_outputs())
}

// Both ways of each transform that the case is about.
pub fn accepted(more: usize, case: Case) -> Tally
    requires { (more ≤ 5) × (case.n ≤ 1024) }
{
    let mut sum = Tally::default();
    for transform in Transform::ALL {
        let way = Way::Fast;
        if case.calls.has(Call { transform, way }) {
            sum += both_ways(transform, more, case);
        }
    }
    sum
}
