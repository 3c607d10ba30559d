// What an MDCT and an IMDCT answer before they store anything: document 01, "Numbers for no", 1 to 4, in that order. Nothing is changed here.
// Both are lent three slices of n entries, a window of 2n, and scratch of `parts` times n: no part for the naive sums, two for the fast way.
#![tactic(auto)]

ghost use Rattle.std.specs.Prelude.{◌≡◌, [], ◌∷◌, ◌++◌, ◌≤◌, map};
ghost use Rattle.answers.specs.Said.{says};
ghost use Rattle.sums.specs.Call.{transform_answer, block_lengths, mdct_answer, imdct_answer};
ghost use Rattle.sums.specs.Bad.{sound_slices};
ghost use Rattle.sums.specs.Size.{allowed_size};
ghost use Rattle.sums.specs.Window.{accepted_window};

use answers::Refusal;

// Whether each of several slices holds residues only.
fn sound_slices(slices: &[&[u32]]) -> bool
    ensures { result ≡ sound_slices (map (λ x. x.now) slices.now) }
{
    slices.iter().all(|entries| lending::sound(entries))
}

// All four tests. What is searched for bad residues, beside the window, are the slices that are read or added to; one that is overwritten may hold anything.
#[tactic(auto, using(crate::proofs::Searched::one_more, lending::proofs::Sizes::size_small))]
fn block_answer(
    parts: usize,
    n: usize,
    a: &[u32],
    b: &[u32],
    c: &[u32],
    searched: &[&[u32]],
    window: &[u32],
    scratch: usize,
) -> Result<(), Refusal>
    requires { parts ≤ 2 }
    ensures { says result ≡ transform_answer (allowed_size 2 n) (block_lengths parts n a.now b.now c.now window.now scratch) (map (λ x. x.now) searched.now ++ (window.now ∷ [])) (accepted_window n window.now) }
{
    if !lending::allowed_size(2, n) {
        return Err(Refusal::Size);
    }
    if !lending::block_fits(parts, n, a.len(), b.len(), c.len(), window.len(), scratch) {
        return Err(Refusal::Length);
    }
    if !sound_slices(searched) || !lending::sound(window) {
        return Err(Refusal::Residue);
    }
    if !window_residue::accepted(window, n) {
        return Err(Refusal::Window);
    }
    Ok(())
}

// An MDCT reads two segments and the window, and overwrites its output.
pub fn mdct_answer(
    parts: usize,
    n: usize,
    first: &[u32],
    second: &[u32],
    output: &[u32],
    window: &[u32],
    scratch: usize,
) -> Result<(), Refusal>
    requires { parts ≤ 2 }
    ensures { says result ≡ mdct_answer parts n first.now second.now output.now window.now scratch }
{
    block_answer(
        parts,
        n,
        first,
        second,
        output,
        &[first, second],
        window,
        scratch,
    )
}

// An IMDCT reads its input and the window, and adds to both outputs.
pub fn imdct_answer(
    parts: usize,
    n: usize,
    input: &[u32],
    first: &[u32],
    second: &[u32],
    window: &[u32],
    scratch: usize,
) -> Result<(), Refusal>
    requires { parts ≤ 2 }
    ensures { says result ≡ imdct_answer parts n input.now first.now second.now window.now scratch }
{
    block_answer(
        parts,
        n,
        input,
        first,
        second,
        &[input, first, second],
        window,
        scratch,
    )
}
