// What a call over f64 asks of its size and of the lengths of what it is lent, before it changes any entry: document 01, "Sizes" and "Numbers for no", 1 and 2. A
// test here answers and changes nothing, and looks at no entry.
#![tactic(auto)]

ghost use Rattle.std.specs.Prelude.{◌≡◌, ◌≤◌, length};
ghost use Rattle.answers.specs.Said.{says};
ghost use Rattle.floats.specs.Call.{naive_size, even_size, tabled_fits, naive_block_fits, fast_block_fits, naive_answer, fast_answer, naive_block_answer, fast_block_answer};

use answers::Refusal;

// From 1 to 1024.
#[tactic(auto, unfolding(floats::specs::Call::naive_size))]
fn naive_size(n: usize) -> bool
    ensures { result ≡ naive_size n }
{
    1 <= n && n <= 1024
}

// Even, from 2 to 1024.
#[tactic(auto, unfolding(floats::specs::Call::even_size))]
fn even_size(n: usize) -> bool
    ensures { result ≡ even_size n }
{
    n % 2 == 0 && 2 <= n && n <= 1024
}

// Both tables are as long as is wanted, the buffer has n entries and scratch no fewer.
#[tactic(auto, unfolding(floats::specs::Call::tabled_fits))]
fn tabled_fits(
    wanted: usize,
    n: usize,
    cosines: usize,
    sines: usize,
    buffer: usize,
    scratch: usize,
) -> bool
    ensures { result ≡ tabled_fits wanted n cosines sines buffer scratch }
{
    cosines == wanted && sines == wanted && lending::lengths_fit(buffer, n, scratch, n)
}

// The lengths of a naive MDCT or IMDCT, and its table of 4n.
#[tactic(auto, unfolding(floats::specs::Call::naive_block_fits))]
fn naive_block_fits(
    n: usize,
    table: usize,
    a: usize,
    b: usize,
    c: usize,
    window: usize,
    scratch: usize,
) -> bool
    requires { n ≤ 1024 }
    ensures { result ≡ naive_block_fits n table a b c window scratch }
{
    table == 4 * n && lending::block_fits(0, n, a, b, c, window, scratch)
}

// The lengths of a fast one, and its two tables.
#[tactic(auto, unfolding(floats::specs::Call::fast_block_fits))]
fn fast_block_fits(
    n: usize,
    cosines: usize,
    sines: usize,
    a: usize,
    b: usize,
    c: usize,
    window: usize,
    scratch: usize,
) -> bool
    requires { n ≤ 1024 }
    ensures { result ≡ fast_block_fits n cosines sines a b c window scratch }
{
    cosines == 8192 && sines == 8192 && lending::block_fits(2, n, a, b, c, window, scratch)
}

// What a naive transform in place answers before it stores anything.
#[tactic(auto, using(crate::proofs::Accepted::naive_small))]
pub fn naive_answer(
    n: usize,
    cosines: usize,
    sines: usize,
    buffer: usize,
    scratch: usize,
) -> Result<(), Refusal>
    ensures { says result ≡ naive_answer n cosines sines buffer scratch }
{
    if !naive_size(n) {
        return Err(Refusal::Size);
    }
    if !tabled_fits(4 * n, n, cosines, sines, buffer, scratch) {
        return Err(Refusal::Length);
    }
    Ok(())
}

// What a fast one answers; the allowed sizes begin with `least`.
pub fn fast_answer(
    least: usize,
    n: usize,
    cosines: usize,
    sines: usize,
    buffer: usize,
    scratch: usize,
) -> Result<(), Refusal>
    ensures { says result ≡ fast_answer least n cosines sines buffer scratch }
{
    if !lending::allowed_size(least, n) {
        return Err(Refusal::Size);
    }
    if !tabled_fits(8192, n, cosines, sines, buffer, scratch) {
        return Err(Refusal::Length);
    }
    Ok(())
}

// What a naive MDCT or IMDCT answers.
#[tactic(auto, using(crate::proofs::Accepted::even_small))]
pub fn naive_block_answer(
    n: usize,
    table: usize,
    a: usize,
    b: usize,
    c: usize,
    window: usize,
    scratch: usize,
) -> Result<(), Refusal>
    ensures { says result ≡ naive_block_answer n table a b c window scratch }
{
    if !even_size(n) {
        return Err(Refusal::Size);
    }
    if !naive_block_fits(n, table, a, b, c, window, scratch) {
        return Err(Refusal::Length);
    }
    Ok(())
}

// What a fast MDCT or IMDCT answers.
#[tactic(auto, using(lending::proofs::Sizes::size_small))]
pub fn fast_block_answer(
    n: usize,
    cosines: usize,
    sines: usize,
    a: usize,
    b: usize,
    c: usize,
    window: usize,
    scratch: usize,
) -> Result<(), Refusal>
    ensures { says result ≡ fast_block_answer n cosines sines a b c window scratch }
{
    if !lending::allowed_size(2, n) {
        return Err(Refusal::Size);
    }
    if !fast_block_fits(n, cosines, sines, a, b, c, window, scratch) {
        return Err(Refusal::Length);
    }
    Ok(())
}
