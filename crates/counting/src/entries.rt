// What is lent to the calls, what should stand there afterwards, and how the two are compared.
ghost use Rattle.std.specs.Prelude.{◌≡◌, ℕ, ◌*◌, ◌%◌, ◌≤◌, ◌<◌, ◌==◌, length, replicate, zip, count_by, IfSome};
ghost use Rattle.std.specs.List.{enumerate_from};
ghost use Rattle.sums.specs.Residue.{p, Residues};
ghost use Rattle.sums.specs.Transform.{times_half_length};
ghost use Rattle.counting.specs.Cases.{place_in, number_of};
ghost use Rattle.counting.specs.Counted.{alike};
ghost use Rattle.counting.specs.Lent.{mark_or_zero, marked};

use crate::cases::{Place, Value};
use crate::count::Count;
use arrayvec::ArrayVec;
use residue::arithmetic::reduce;

// One entry that is told: its place and what stands there.
#[derive(Clone, Copy, Debug, PartialEq)]
pub struct Entry {
    pub place: usize,
    pub value: u32,
}

impl Entry {
    // The entry at a place of n. Of three values, so no `From`.
    pub fn of(place: Place, value: Value, n: usize) -> Entry
        requires { 1 ≤ n }
        ensures place { result.place ≡ place_in n place }
        ensures value { result.value ≡ number_of value }
    {
        Entry {
            place: place.of(n),
            value: u32::from(value),
        }
    }
}

// As many entries as are ever lent as one slice.
pub const ROOM: usize = 4096;

// What is lent as one slice, or what should stand there afterwards.
pub type Entries = ArrayVec<u32, ROOM>;

// So many zeros.
#[tactic(auto, using(crate::proofs::Zeros::zeros_taken))]
pub fn zeros(length: usize) -> Entries
    requires { length ≤ ROOM }
    ensures { result.items ≡ replicate length 0 }
{
    let mut entries = ArrayVec::from_array_in((), [0; ROOM]);
    entries.truncate(length);
    entries
}

// Residues as if by chance, by the generator of Park and Miller.
pub fn fill(start: u64, out: &mut [u32])
    ensures { Residues out.new }
{
    let mut state = start % 2147483647;
    for entry in out.iter_mut() {
        state = state * 48271 % 2147483647;
        *entry = reduce(state);
    }
}

// Residues as if by chance. Where an entry is told and its place is one of theirs, 0 stands in the middle and then what is told.
pub fn fill_with(start: u64, told: Option<Entry>, out: &mut [u32])
    ensures { IfSome told (λ entry. entry.value < p) → Residues out.new }
{
    fill(start, out);
    if let Some(entry) = told {
        if entry.place < out.len() {
            out[out.len() / 2] = 0;
            out[entry.place] = entry.value;
        }
    }
}

// The same entries in two slices.
pub fn fill_two(start: u64, told: Option<Entry>, first: &mut [u32], second: &mut [u32])
    requires { length first.old ≡ length second.old }
    ensures same { second.new ≡ first.new }
    ensures residues { IfSome told (λ entry. entry.value < p) → Residues first.new }
{
    fill_with(start, told, first);
    second.copy_from_slice(first);
}

// What stands at a place of scratch: zero below n, and else a mark. A mark is no residue: what scratch holds is no ground to refuse.
fn mark_or_zero(n: usize, place: usize) -> u32
    ensures { result ≡ mark_or_zero n place }
{
    if place < n {
        0
    } else {
        4000000000 + (place % 1000) as u32
    }
}

// Scratch before a call.
pub fn mark(scratch: &mut [u32])
    ensures { scratch.new ≡ marked 0 (length scratch.old) }
{
    for (place, entry) in scratch.iter_mut().enumerate() {
        *entry = mark_or_zero(0, place);
    }
}

// How many entries of scratch are as they should be after a call that needed n.
fn marks_kept(n: usize, scratch: &[u32]) -> usize
    ensures { result ≡ count_by (λ (q : ℕ × ℕ). q.1 == mark_or_zero n q.0) (enumerate_from 0 scratch.now) }
{
    scratch
        .iter()
        .enumerate()
        .filter(|(place, entry)| **entry == mark_or_zero(n, *place))
        .count()
}

// The same as a count of all entries of scratch.
#[tactic(auto, using(crate::proofs::Compared::counted_enumerate))]
pub fn compare_marks(n: usize, scratch: &[u32]) -> Count
    ensures all { result.all ≡ length scratch.now }
    ensures good { result.good ≡ alike (length scratch.now) scratch.now (marked n (length scratch.now)) }
{
    Count::of(scratch.len(), marks_kept(n, scratch))
}

// The factor is a u32 that is said to be below p, as in `residue`.
#[tactic(auto, using(crate::proofs::Products::product_fits))]
fn times(a: u32, factor: u32) -> u32
    requires { factor < p }
    ensures { result ≡ a * factor % p }
{
    reduce(u64::from(a) * u64::from(factor))
}

// Every one of n entries times n/2.
pub fn scale(out: &mut [u32])
    requires { length out.old ≤ 1024 }
    ensures { out.new ≡ times_half_length out.old }
{
    let factor = reduce(out.len() as u64 * 499122177);
    for entry in out.iter_mut() {
        *entry = times(*entry, factor);
    }
}

// At how many places two slices hold the same.
fn same(entries: &[u32], right: &[u32]) -> usize
    ensures { result ≡ count_by (λ (q : ℕ × ℕ). q.0 == q.1) (zip entries.now right.now) }
{
    entries.iter().zip(right).filter(|(a, b)| a == b).count()
}

// How many entries there are, and how many of them are as they should be.
#[tactic(auto, using(crate::proofs::Compared::counted_zip))]
pub fn compare(entries: &[u32], right: &[u32]) -> Count
    requires { length entries.now ≡ length right.now }
    ensures all { result.all ≡ length entries.now }
    ensures good { result.good ≡ alike (length entries.now) entries.now right.now }
{
    Count::of(entries.len(), same(entries, right))
}
