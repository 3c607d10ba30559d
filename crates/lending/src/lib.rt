// What a call asks of its size and of the slices that it is lent, before it changes any entry: document 01, "Sizes" and "Numbers
// for no", 1 to 3. A test here answers and changes nothing.
#![tactic(auto)]

ghost use Rattle.std.specs.Prelude.{◌≡◌, true, [], ◌∷◌, ◌*◌, ◌≤◌, length};
ghost use Rattle.answers.specs.Said.{says};
ghost use Rattle.sums.specs.Size.{allowed_size};
ghost use Rattle.sums.specs.Lengths.{lengths_fit};
ghost use Rattle.sums.specs.Bad.{found_bad, sound_entries};
ghost use Rattle.sums.specs.Call.{transform_answer, in_place_answer, block_fits};

use answers::Refusal;

// The modulus of the residues.
pub const P: u32 = 998244353;

// A power of two from `least` to 1024.
#[tactic(auto, using(crate::proofs::Sizes::allowed_within, crate::proofs::Sizes::refused_without))]
pub fn allowed_size(least: usize, n: usize) -> bool
    ensures { result ≡ allowed_size least n }
{
    least <= n && n <= 1024 && n.is_power_of_two()
}

// A buffer must be as long as is wanted; of scratch more than is needed will do.
#[tactic(auto, unfolding(sums::specs::Lengths::lengths_fit))]
pub fn lengths_fit(buffer: usize, wanted: usize, scratch: usize, needed: usize) -> bool
    ensures { result ≡ lengths_fit buffer wanted scratch needed }
{
    buffer == wanted && needed <= scratch
}

// The lengths of an MDCT or IMDCT: three slices of n entries, a window of 2n, and scratch for `parts` times n.
pub fn block_fits(
    parts: usize,
    n: usize,
    a: usize,
    b: usize,
    c: usize,
    window: usize,
    scratch: usize,
) -> bool
    requires { (parts ≤ 2) × (n ≤ 1024) }
    ensures { result ≡ block_fits parts n a b c window scratch }
{
    a == n && b == n && c == n && lengths_fit(window, 2 * n, scratch, parts * n)
}

// The place of the first entry that is no residue, if there is one.
pub fn first_bad(entries: &[u32]) -> Option<usize>
    ensures { result ≡ found_bad entries.now }
{
    entries.iter().position(|entry| P <= *entry)
}

// Whether every entry is a residue. Every call asks it of all that it reads, so it goes on past a bad entry where `all` would stop: with no exit in its midst it takes several
// entries at a time.
pub fn sound(entries: &[u32]) -> bool
    ensures { result ≡ sound_entries entries.now }
{
    entries
        .iter()
        .fold(true, |sound, entry| sound & (*entry < P))
}

// Size, then lengths: 1 and 2. A buffer of `times` times n is wanted, and scratch of `parts` times n is needed. Only an allowed size is multiplied.
#[tactic(auto, using(crate::proofs::Sizes::small_product))]
pub fn lengths_answer(
    least: usize,
    n: usize,
    buffer: usize,
    times: usize,
    scratch: usize,
    parts: usize,
) -> Result<(), Refusal>
    requires { (times ≤ 2) × (parts ≤ 2) }
    ensures { says result ≡ transform_answer (allowed_size least n) (lengths_fit buffer (times * n) scratch (parts * n)) [] true }
{
    if !allowed_size(least, n) {
        return Err(Refusal::Size);
    }
    if !lengths_fit(buffer, times * n, scratch, parts * n) {
        return Err(Refusal::Length);
    }
    Ok(())
}

// The same of a buffer whose entries are read, and then its residues: 1, 2 and 3.
pub fn entries_answer(
    least: usize,
    n: usize,
    buffer: &[u32],
    times: usize,
    scratch: usize,
    parts: usize,
) -> Result<(), Refusal>
    requires { (times ≤ 2) × (parts ≤ 2) }
    ensures { says result ≡ transform_answer (allowed_size least n) (lengths_fit (length buffer.now) (times * n) scratch (parts * n)) (buffer.now ∷ []) true }
{
    lengths_answer(least, n, buffer.len(), times, scratch, parts)?;
    if !sound(buffer) {
        return Err(Refusal::Residue);
    }
    Ok(())
}

// What a transform in place answers before it stores anything.
pub fn in_place_answer(
    least: usize,
    n: usize,
    buffer: &[u32],
    scratch: usize,
) -> Result<(), Refusal>
    ensures { says result ≡ in_place_answer least n buffer.now scratch }
{
    entries_answer(least, n, buffer, 1, scratch, 1)
}
