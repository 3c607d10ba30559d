// The calls that fill a window, and the one that tests it.
ghost use Rattle.std.specs.Prelude.{◌≡◌, ◌≤◌};

use answers::Refusal;
use counting::count::Tally;
use counting::entries;
use counting::entries::ROOM;
use mdct_lent::case::Case;
use mdct_lent::lent;

#[derive(Clone, Copy, Debug, PartialEq)]
enum Call {
    Flat,
    Sine,
    Test,
}

impl Call {
    const ALL: [Call; 3] = [Call::Flat, Call::Sine, Call::Test];

    fn call(self, n: usize, window: &mut [u32]) -> Result<(), Refusal> {
        match self {
            Call::Flat => window_residue::flat_window(n, window),
            Call::Sine => window_residue::sine_window(n, window),
            Call::Test => window_residue::test_window(n, window),
        }
    }
}

// All three calls on marks, which are no residues: they should be refused for one reason and leave the marks.
pub fn refused(n: usize, length: usize, reason: Refusal) -> Tally
    requires { length ≤ ROOM }
{
    let mut window = entries::zeros(length);
    let mut sum = Tally::default();
    for call in Call::ALL {
        entries::mark(&mut window);
        let answer = call.call(n, &mut window);
        sum += Tally::of_call(answer, Err(reason), entries::compare_marks(0, &window));
    }
    sum
}

// The test of the case's window.
pub fn tested(case: Case, right: Result<(), Refusal>) -> Tally
    ensures { (result.answers.all ≡ 1) × (result.lent.all ≡ case.window.entries) }
{
    let window = lent::window(&case);
    let answer = window_residue::test_window(case.n, &window.entries);
    Tally::of_call(answer, right, window.count())
}
