// What a call is told and lent.
ghost use Rattle.std.specs.Prelude.{◌≡◌, ◌+◌, ◌*◌, ◌≤◌, ◌≢◌, IfNone, IfSome, IsSomeAnd};
ghost use Rattle.counting.specs.Cases.{place_in, number_of};

use crate::call::Calls;
use counting::cases::{Place, Value};
use counting::entries::{Entry, ROOM};
use std::fmt;

// How many entries are lent as one slice.
#[derive(Clone, Copy, Debug, PartialEq)]
pub struct Length {
    pub entries: usize,
    ghost fits: { entries ≤ 4096 },
}

impl Length {
    pub fn of(entries: usize) -> Length
        requires { entries ≤ ROOM }
        ensures { result.entries ≡ entries }
    {
        Length { entries }
    }
}

// One of the slices of which an entry or the length can be wrong.
#[derive(Clone, Copy, Debug, PartialEq)]
pub enum Slice {
    First,
    Second,
    Third,
    Window,
}

impl Slice {
    ghost use Rattle.mdct_lent.specs.Lengths.{entries_of};

    // How many entries it has in a block of n.
    pub fn entries(self, n: usize) -> usize
        requires { n ≤ 1024 }
        ensures { result ≡ entries_of self n }
    {
        match self {
            Slice::First | Slice::Second | Slice::Third => n,
            Slice::Window => 2 * n,
        }
    }
}

impl fmt::Display for Slice {
    fn fmt<W: fmt::Write>(&self, f: &mut fmt::Formatter<W>) -> fmt::Result {
        f.write_str(match self {
            Slice::First => "first slice",
            Slice::Second => "second slice",
            Slice::Third => "third slice",
            Slice::Window => "window",
        })
    }
}

// How a length is wrong.
#[derive(Clone, Copy, Debug, PartialEq)]
pub enum Wrong {
    OneShort,
    OneLong,
    Empty,
}

impl Wrong {
    ghost use Rattle.mdct_lent.specs.Lengths.{length_of};

    pub const ALL: [Wrong; 3] = [Wrong::OneShort, Wrong::OneLong, Wrong::Empty];

    // In place of a length that is right.
    pub fn length(self, right: usize) -> usize
        requires { (1 ≤ right) × (right ≤ 2048) }
        ensures wrong { result ≡ length_of self right }
        ensures at_most { result ≤ right + 1 }
    {
        match self {
            Wrong::OneShort => right - 1,
            Wrong::OneLong => right + 1,
            Wrong::Empty => 0,
        }
    }
}

impl fmt::Display for Wrong {
    fn fmt<W: fmt::Write>(&self, f: &mut fmt::Formatter<W>) -> fmt::Result {
        f.write_str(match self {
            Wrong::OneShort => "one short",
            Wrong::OneLong => "one long",
            Wrong::Empty => "empty",
        })
    }
}

// The window that is lent, where it has 2n entries and n is a size. Else it is residues.
#[derive(Clone, Copy, Debug, PartialEq)]
pub enum Shape {
    Flat,
    Sine,
}

impl Shape {
    pub const ALL: [Shape; 2] = [Shape::Flat, Shape::Sine];
}

// What is then changed of it.
#[derive(Clone, Copy, Debug, PartialEq)]
pub enum Change {
    // The entry at one place is one more.
    OneMore(usize),
    // All entries are 1.
    Ones,
}

#[derive(Clone, Copy, Debug, PartialEq)]
pub struct Case {
    // The size that is named.
    pub n: usize,
    // How many entries are lent: of the three slices of a block, of the window and of scratch.
    pub first: Length,
    pub second: Length,
    pub third: Length,
    pub window: Length,
    pub scratch: Length,
    pub shape: Shape,
    pub change: Option<Change>,
    // One entry that is told, and the slice in which it stands.
    pub told: Option<(Slice, Entry)>,
    // Which calls.
    pub calls: Calls,
}

impl Case {
    ghost use Rattle.mdct_lent.specs.Lengths.{entries_of, lent_of, length_of};

    // As many entries as the size says, all of them residues, and the sine window.
    pub fn of_size(n: usize) -> Case
        requires { n ≤ 2048 }
        ensures size { result.n ≡ n }
        ensures slices { (result.first.entries ≡ n) × (result.second.entries ≡ n) × (result.third.entries ≡ n) }
        ensures rest { (result.window.entries ≡ 2 * n) × (result.scratch.entries ≡ 2 * n) }
    {
        Case {
            n,
            first: Length::of(n),
            second: Length::of(n),
            third: Length::of(n),
            window: Length::of(2 * n),
            scratch: Length::of(2 * n),
            shape: Shape::Sine,
            change: None,
            told: None,
            calls: Calls::All,
        }
    }

    // A wrong length of one slice.
    pub fn of_length(slice: Slice, wrong: Wrong, n: usize) -> Case
        requires { (1 ≤ n) × (n ≤ 1024) }
        ensures wrong { lent_of slice result ≡ length_of wrong (entries_of slice n) }
        ensures size { result.n ≡ n }
    {
        let case = Case::of_size(n);
        let length = Length::of(wrong.length(slice.entries(n)));
        match slice {
            Slice::First => Case {
                first: length,
                ..case
            },
            Slice::Second => Case {
                second: length,
                ..case
            },
            Slice::Third => Case {
                third: length,
                ..case
            },
            Slice::Window => Case {
                window: length,
                ..case
            },
        }
    }

    // A wrong length of scratch, which the naive ways do not need.
    pub fn of_scratch(wrong: Wrong, n: usize) -> Case
        requires { (1 ≤ n) × (n ≤ 1024) }
        ensures wrong { (result.scratch.entries ≡ length_of wrong (2 * n)) × (result.calls ≡ Calls.Fast) }
        ensures size { result.n ≡ n }
    {
        Case {
            scratch: Length::of(wrong.length(2 * n)),
            calls: Calls::Fast,
            ..Case::of_size(n)
        }
    }

    // One entry that is told.
    pub fn of_entry(place: Place, slice: Slice, value: Value, n: usize) -> Case
        requires { (1 ≤ n) × (n ≤ 1024) }
        ensures told { IsSomeAnd result.told (λ told. (told.0 ≡ slice) × (told.1.place ≡ place_in (entries_of slice n) place) × (told.1.value ≡ number_of value)) }
        ensures size { result.n ≡ n }
    {
        let entry = Entry::of(place, value, slice.entries(n));
        Case {
            told: Some((slice, entry)),
            ..Case::of_size(n)
        }
    }

    // The entry that is told of a slice.
    pub fn told_of(&self, slice: Slice) -> Option<Entry>
        ensures some { IfSome result (λ entry. self.now.told ≡ Some (slice, entry)) }
        ensures none { IfNone result ((entry : _) → self.now.told ≢ Some (slice, entry)) }
    {
        self.told
            .filter(|(told, _entry)| *told == slice)
            .map(|(_told, entry)| entry)
    }
}
