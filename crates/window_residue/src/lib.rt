// Residue windows (document 01, "The sums"; window_fn.rs): whether one is accepted, whoever made it, and the two that the paper names.
// The public calls: `test_window` refuses by 1, 2, 3 and 4, in that order, and changes nothing. `flat_window` and `sine_window` fill a lent slice,
// or refuse by 1 and 2, in that order, and then change nothing.
// A residue is a u32 that is said to be below p, as in `residue`.
#![tactic(auto)]

ghost use Rattle.std.specs.Prelude.{◌≡◌, [], ◌+◌, ◌*◌, ◌-◌, ◌^◌, ◌%◌, ◌<◌, T, length};
ghost use Rattle.answers.specs.Said.{says};
ghost use Rattle.ring.specs.Finite.{tab};
ghost use Rattle.sums.specs.Residue.{p, half, Residues, Powers};
ghost use Rattle.sums.specs.Angle.{sin_turn};
ghost use Rattle.sums.specs.Size.{allowed_size, exponent_of};
ghost use Rattle.sums.specs.Window.{symmetric_window, unit_power, accepted_window, flat_window, sine_window};
ghost use Rattle.sums.specs.Call.{window_answer, fill_answer, outcome, filled};

use answers::Refusal;
use lending::P;
use places::unit;
use residue::angle::sine;
use residue::arithmetic::{reduce, times};

// 1/2.
const HALF: u32 = 499122177;

// √2.
const ROOT: u32 = 882049182;

// 1/√2.
const ROOT_INVERSE: u32 = 441024591;

// With n = 2^m, which ends in m noughts in base two, `first` times the factor m times over.
#[tactic(auto, using(crate::proofs::Scale::scaled_none, crate::proofs::Scale::scaled_more, crate::proofs::Scale::doublings))]
fn scaled(n: usize, first: u32, factor: u32) -> u32
    requires { T (allowed_size 2 n) × (first < p) × (factor < p) }
    ensures { result ≡ first * factor ^ exponent_of n % p }
{
    let mut value = first;
    for _ in 0..n.trailing_zeros() {
        value = times(value, factor);
    }
    value
}

// Read backwards it is the same: each entry of the first half is the one as far from the end. It goes on past two that differ, where `all` would stop: with no exit in its
// midst it takes several entries at a time.
fn symmetric(window: &[u32], n: usize) -> bool
    requires { length window.now ≡ 2 * n }
    ensures { result ≡ symmetric_window n window.now }
{
    window[..n]
        .iter()
        .zip(window.iter().rev())
        .fold(true, |same, (front, back)| same & (*front == *back))
}

// The sum of two squares less a share, for which p less the share is added, so that one reduction does.
#[tactic(auto, using(residue::proofs::Reduce::product_below))]
fn power_less(a: u32, b: u32, share: u32) -> u32
    requires { (a < p) × (b < p) × (share < p) }
    ensures { result ≡ (a * a + b * b + (p - share)) % p }
{
    reduce(u64::from(a) * u64::from(a) + u64::from(b) * u64::from(b) + u64::from(P - share))
}

// Each entry and the one that overlaps it carry the power 2/n between them. In a symmetric window the one n places on is also the one as far from the end of the first half,
// so the first quarter stands for all. What is compared with 0 takes one product to reduce, where another number takes two.
fn unit_power(window: &[u32], n: usize, share: u32) -> bool
    requires { (length window.now ≡ 2 * n) × T (allowed_size 2 n) × Residues window.now × T (symmetric_window n window.now) × (share ≡ 2 * half ^ exponent_of n % p) }
    ensures { result ≡ unit_power n window.now }
{
    let half = &window[..n];
    half[..n / 2]
        .iter()
        .zip(half.iter().rev())
        .all(|(front, back)| power_less(*front, *back, share) == 0)
}

// Both rules. 2/n is 2, halved as often as 1 is doubled to make n.
#[tactic(auto, unfolding(sums::specs::Window::accepted_window))]
pub fn accepted(window: &[u32], n: usize) -> bool
    requires { (length window.now ≡ 2 * n) × T (allowed_size 2 n) × Residues window.now }
    ensures { result ≡ accepted_window n window.now }
{
    symmetric(window, n) && unit_power(window, n, scaled(n, 2, HALF))
}

// Whether a window serves blocks of n. `Ok` means that it is accepted.
pub fn test_window(n: usize, window: &[u32]) -> Result<(), Refusal>
    ensures { says result ≡ window_answer n window.now }
{
    lending::entries_answer(2, n, window, 2, 0, 0)?;
    if !accepted(window, n) {
        return Err(Refusal::Window);
    }
    Ok(())
}

// The sine at odd multiples of 1/(8n) of a turn, of which each is `unit` entries of the table, times a factor.
fn arch(table: &[u32], n: usize, unit: usize, factor: u32, window: &mut [u32])
    requires { Powers table.now × (length table.now ≡ 8192) × (unit * (8 * n) ≡ 8192) × (factor < p) × (length window.old ≡ 2 * n) }
    ensures { window.new ≡ tab (2 * n) (λ i. sin_turn (2 * i + 1) (8 * n) * factor % p) }
{
    for (i, entry) in window.iter_mut().enumerate() {
        *entry = times(sine(table, (2 * i + 1) * unit), factor);
    }
}

// What a fill answers before it stores anything: 1 and 2, in that order. What the slice holds is not looked at.
fn fill_answer(n: usize, window: &[u32]) -> Result<(), Refusal>
    ensures { says result ≡ fill_answer n window.now }
{
    lending::lengths_answer(2, n, window.len(), 2, 0, 0)
}

// The flat window for blocks of n.
pub fn flat_window(n: usize, window: &mut [u32]) -> Result<(), Refusal>
    ensures { outcome (says result) window.new [] ≡ filled flat_window n window.old }
{
    fill_answer(n, window)?;
    window.fill(scaled(n, 1, ROOT_INVERSE));
    Ok(())
}

// The sine window for blocks of n.
pub fn sine_window(n: usize, window: &mut [u32]) -> Result<(), Refusal>
    ensures { outcome (says result) window.new [] ≡ filled sine_window n window.old }
{
    fill_answer(n, window)?;
    arch(
        powers::table(),
        n,
        unit(n),
        scaled(n, ROOT, ROOT_INVERSE),
        window,
    );
    Ok(())
}
