// Calls that should be accepted: each twice, which is n/2 times the input.
ghost use Rattle.std.specs.Prelude.{◌+◌, ◌≤◌};

use crate::transform::Transform;
use counting::count::Tally;
use counting::entries;
use counting::entries::Entry;
use in_place_tests::call::Call;

// Both calls on residues, one of which is told, with scratch of a length.
pub fn back(n: usize, scratch: usize, told: Entry) -> Tally
    requires { (n ≤ 1024) × (scratch ≤ n + 5) }
{
    let mut buffer = entries::zeros(n);
    let mut right = entries::zeros(n);
    let mut scratch = entries::zeros(scratch);
    let mut sum = Tally::default();
    for (start, call) in (11..).zip(Transform::ALL) {
        entries::fill_two(start, Some(told), &mut buffer, &mut right);
        entries::scale(&mut right);
        let once = call.accepted(&mut buffer, &mut scratch);
        let twice = call.accepted(&mut buffer, &mut scratch);
        sum += (once + twice).with_outputs(entries::compare(&buffer, &right));
    }
    sum
}
