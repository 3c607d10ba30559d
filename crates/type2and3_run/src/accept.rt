// Calls that should be accepted.
ghost use Rattle.std.specs.Prelude.{◌+◌, ◌≤◌};

use crate::transform::{Kind, Plan, Transform};
use counting::count::Tally;
use counting::entries;
use counting::entries::Entry;
use in_place_tests::call::Call;

// The naive and the fast call of each transform on the same residues, with scratch of a length.
pub fn agree(n: usize, scratch: usize, told: Option<Entry>) -> Tally
    requires { (n ≤ 1024) × (scratch ≤ n + 5) }
{
    let mut naive = entries::zeros(n);
    let mut fast = entries::zeros(n);
    let mut scratch = entries::zeros(scratch);
    let mut sum = Tally::default();
    for (start, kind) in (1..).zip(Kind::ALL) {
        entries::fill_two(start, told, &mut naive, &mut fast);
        let by_sum = Transform(kind, Plan::Naive).accepted(&mut naive, &mut scratch);
        let by_split = Transform(kind, Plan::Fast).accepted(&mut fast, &mut scratch);
        sum += (by_sum + by_split).with_outputs(entries::compare(&fast, &naive));
    }
    sum
}

// Each transform of type 2 and then that of type 3 on residues, one of which is told. It should leave n/2 times these.
pub fn back(n: usize, told: Entry) -> Tally
    requires { n ≤ 1024 }
{
    let mut buffer = entries::zeros(n);
    let mut right = entries::zeros(n);
    let mut scratch = entries::zeros(n);
    let mut sum = Tally::default();
    for (start, &Transform(kind, plan)) in (11..).zip(&Transform::ALL[..4]) {
        entries::fill_two(start, Some(told), &mut buffer, &mut right);
        entries::scale(&mut right);
        let there = Transform(kind, plan).accepted(&mut buffer, &mut scratch);
        let back = Transform(kind.way_back(), plan).accepted(&mut buffer, &mut scratch);
        sum += (there + back).with_outputs(entries::compare(&buffer, &right));
    }
    sum
}
