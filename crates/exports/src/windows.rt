// Windows across the C interface: two that are filled in, and the test of any.
ghost use Rattle.std.specs.Prelude.{[]};
ghost use Rattle.sums.specs.Call.{filled, window_answer};
ghost use Rattle.sums.specs.Window.{flat_window, sine_window};
ghost use Rattle.sums.specs.Returned.{Returned, ReturnedAnswer};

use answers::answer_number;

#[unsafe(no_mangle)]
pub extern "C" fn kultygash_residue_flat_window(n: usize, window: &mut [u32]) -> u32
    ensures { Returned result window.new [] (filled flat_window n window.old) }
{
    answer_number(window_residue::flat_window(n, window))
}

#[unsafe(no_mangle)]
pub extern "C" fn kultygash_residue_sine_window(n: usize, window: &mut [u32]) -> u32
    ensures { Returned result window.new [] (filled sine_window n window.old) }
{
    answer_number(window_residue::sine_window(n, window))
}

#[unsafe(no_mangle)]
pub extern "C" fn kultygash_residue_test_window(n: usize, window: &[u32]) -> u32
    ensures { ReturnedAnswer result (window_answer n window.now) }
{
    answer_number(window_residue::test_window(n, window))
}
