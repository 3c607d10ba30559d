// What a call is told and lent, and what it should answer.
ghost use Rattle.std.specs.Prelude.{◌≡◌, ◌≢◌, ◌≤◌, ◌<◌, ◌⊎◌, []};
ghost use Rattle.answers.specs.Said.{says, refused};
ghost use Rattle.counting.specs.Cases.{place_in, number_of};

use answers::Refusal;
use counting::cases::{P, Place, Value};
use counting::entries::Entry;
use std::fmt;

#[derive(Clone, Copy, Debug, PartialEq)]
pub struct Case {
    // The size that is named.
    pub n: usize,
    // How many entries the buffer and scratch have.
    pub buffer: usize,
    pub scratch: usize,
    // One entry of the buffer, whose others are residues.
    pub entry: Entry,
    pub right: Result<(), Refusal>,
    ghost fits: { (buffer ≤ 2048) × (scratch ≤ 2048) },
}

impl Case {
    // As many entries as the size says, the first of them the largest residue.
    pub fn of_size(n: usize, right: Result<(), Refusal>) -> Case
        requires { n ≤ 2048 }
        ensures lengths { (result.n ≡ n) × (result.buffer ≡ n) × (result.scratch ≡ n) }
        ensures right { result.right ≡ right }
    {
        Case {
            n,
            buffer: n,
            scratch: n,
            entry: Entry {
                place: 0,
                value: P - 1,
            },
            right,
        }
    }

    // Another size is named.
    pub fn with_size(mut self, n: usize) -> Case
        ensures { result ≡ record self { n = n } }
    {
        self.n = n;
        self
    }

    // A buffer of another length.
    pub fn with_buffer(mut self, buffer: usize) -> Case
        requires { buffer ≤ 2048 }
        ensures { (fits : _) × (result ≡ record self { buffer = buffer; fits = fits }) }
    {
        self.buffer = buffer;
        self
    }

    // Scratch of another length.
    pub fn with_scratch(mut self, scratch: usize) -> Case
        requires { scratch ≤ 2048 }
        ensures { (fits : _) × (result ≡ record self { scratch = scratch; fits = fits }) }
    {
        self.scratch = scratch;
        self
    }

    // Another entry is told.
    pub fn with_entry(mut self, entry: Entry) -> Case
        ensures { result ≡ record self { entry = entry } }
    {
        self.entry = entry;
        self
    }

    // A wrong length.
    pub fn of_length(wrong: WrongLength, n: usize) -> Case
        requires { (1 ≤ n) × (n ≤ 1024) }
        ensures wrong { (result.buffer ≢ result.n) ⊎ (result.scratch < result.n) }
        ensures right { (result.n ≡ n) × (says result.right ≡ refused 2 []) }
    {
        let case = Case::of_size(n, Err(Refusal::Length));
        match wrong {
            WrongLength::BufferOneShort => case.with_buffer(n - 1),
            WrongLength::BufferOneLong => case.with_buffer(n + 1),
            WrongLength::BufferEmpty => case.with_buffer(0),
            WrongLength::ScratchOneShort => case.with_scratch(n - 1),
            WrongLength::ScratchEmpty => case.with_scratch(0),
        }
    }

    // An entry that is no residue.
    pub fn of_entry(place: Place, value: Value, n: usize) -> Case
        requires { (1 ≤ n) × (n ≤ 2048) }
        ensures entry { (result.entry.place ≡ place_in n place) × (result.entry.value ≡ number_of value) }
        ensures right { (result.n ≡ n) × (says result.right ≡ refused 3 []) }
    {
        Case::of_size(n, Err(Refusal::Residue)).with_entry(Entry::of(place, value, n))
    }
}

#[derive(Clone, Copy, Debug, PartialEq)]
pub enum WrongLength {
    BufferOneShort,
    BufferOneLong,
    BufferEmpty,
    ScratchOneShort,
    ScratchEmpty,
}

impl WrongLength {
    pub const ALL: [WrongLength; 5] = [
        WrongLength::BufferOneShort,
        WrongLength::BufferOneLong,
        WrongLength::BufferEmpty,
        WrongLength::ScratchOneShort,
        WrongLength::ScratchEmpty,
    ];
}

impl fmt::Display for WrongLength {
    fn fmt<W: fmt::Write>(&self, f: &mut fmt::Formatter<W>) -> fmt::Result {
        f.write_str(match self {
            WrongLength::BufferOneShort => "Buffer one short",
            WrongLength::BufferOneLong => "Buffer one long",
            WrongLength::BufferEmpty => "Buffer empty",
            WrongLength::ScratchOneShort => "Scratch one short",
            WrongLength::ScratchEmpty => "Scratch empty",
        })
    }
}
