// What is lent to the calls, and what they should leave.
ghost use Rattle.std.specs.Prelude.{◌≡◌, ◌+◌, ◌≤◌, length, replicate, OnOk};
ghost use Rattle.arrayvec.specs.ArrayVec.{array_vec_len};
ghost use Rattle.counting.specs.Counted.{alike};

use crate::call::{Call, Transform, Way};
use crate::case::{Case, Change, Shape, Slice};
use answers::Refusal;
use counting::count::{Count, Tally};
use counting::entries;
use counting::entries::{Entries, Entry, ROOM};
use mdct_residue::calls;
use std::mem;

// The same entries as those of a slice.
pub fn copied(slice: &[u32]) -> Entries
    requires { length slice.now ≤ ROOM }
    ensures { result.items ≡ slice.now }
{
    let mut copy = entries::zeros(slice.len());
    copy.copy_from_slice(slice);
    copy
}

// Entries that are lent, and what should stand there after the call.
#[derive(Drop)]
pub struct Lent {
    pub entries: Entries,
    pub right: Entries,
    ghost same_length: { array_vec_len entries ≡ array_vec_len right },
}

impl Lent {
    // Entries that should stay.
    pub fn kept(entries: Entries) -> Lent
        ensures { (result.entries.items ≡ entries.items) × (result.right.items ≡ entries.items) }
    {
        let right = copied(&entries);
        Lent { entries, right }
    }

    // Zeros that should become these entries.
    pub fn zeros(right: Entries) -> Lent
        ensures { (result.entries.items ≡ replicate (array_vec_len right) 0) × (result.right.items ≡ right.items) }
    {
        let entries = entries::zeros(right.len());
        Lent { entries, right }
    }

    // How many entries there are, and how many of them are as they should be.
    pub fn count(&self) -> Count
        ensures all { (result.all ≡ array_vec_len self.now.entries) × (result.all ≤ ROOM) }
        ensures good { result.good ≡ alike (array_vec_len self.now.entries) self.now.entries.items self.now.right.items }
    {
        entries::compare(&self.entries, &self.right)
    }

    // What stands there is what should stand there after the next call, and what should have stood there is lent to it.
    pub fn swap(&mut self)
        ensures { (self.new.entries.items ≡ self.old.right.items) × (self.new.right.items ≡ self.old.entries.items) }
    {
        mem::swap(&mut self.entries, &mut self.right);
    }
}

// Residues as if by chance, and the entry that is told.
fn residues(start: u64, length: usize, told: Option<Entry>) -> Lent
    requires { length ≤ ROOM }
    ensures { array_vec_len result.entries ≡ length }
{
    let mut out = entries::zeros(length);
    entries::fill_with(start, told, &mut out);
    Lent::kept(out)
}

// The window of a case.
fn fill_window(case: &Case, out: &mut [u32]) {
    entries::fill(34, out);
    let _made = match case.shape {
        Shape::Flat => window_residue::flat_window(case.n, out),
        Shape::Sine => window_residue::sine_window(case.n, out),
    };
    match case.change {
        None => {}
        Some(Change::OneMore(place)) => {
            if let Some(entry) = out.get_mut(place) {
                *entry = entry.saturating_add(1);
            }
        }
        Some(Change::Ones) => out.fill(1),
    }
    if let Some(Entry { place, value }) = case.told_of(Slice::Window) {
        if let Some(entry) = out.get_mut(place) {
            *entry = value;
        }
    }
}

pub fn window(case: &Case) -> Lent
    ensures { array_vec_len result.entries ≡ case.now.window.entries }
{
    let mut out = entries::zeros(case.window.entries);
    fill_window(case, &mut out);
    Lent::kept(out)
}

// What one call of MDCT or IMDCT is lent.
#[derive(Drop)]
pub struct Block {
    pub first: Lent,
    pub second: Lent,
    pub third: Lent,
    pub window: Lent,
    pub scratch: Entries,
}

impl Block {
    // What a case says. All should stay.
    pub fn of_case(case: &Case) -> Block
        ensures slices { (array_vec_len result.first.entries ≡ case.now.first.entries) × (array_vec_len result.second.entries ≡ case.now.second.entries) × (array_vec_len result.third.entries ≡ case.now.third.entries) }
        ensures rest { (array_vec_len result.window.entries ≡ case.now.window.entries) × (array_vec_len result.scratch ≡ case.now.scratch.entries) }
    {
        Block {
            first: residues(31, case.first.entries, case.told_of(Slice::First)),
            second: residues(32, case.second.entries, case.told_of(Slice::Second)),
            third: residues(33, case.third.entries, case.told_of(Slice::Third)),
            window: window(case),
            scratch: entries::zeros(case.scratch.entries),
        }
    }

    // MDCT reads two segments and overwrites the third slice. IMDCT reads the first slice and adds to the others.
    fn made(&mut self, call: Call, n: usize) -> Result<(), Refusal>
        ensures kept { (self.new.first ≡ self.old.first) × (self.new.window ≡ self.old.window) }
        ensures same_length { array_vec_len self.new.scratch ≡ array_vec_len self.old.scratch }
    {
        let Block {
            first,
            second,
            third,
            window,
            scratch,
        } = self;
        let (read, window) = (&first.entries, &window.entries);
        let (second, third) = (&mut second.entries, &mut third.entries);
        match (call.transform, call.way) {
            (Transform::Mdct, Way::Naive) => {
                calls::mdct_naive(n, read, second, third, window, scratch)
            }
            (Transform::Mdct, Way::Fast) => {
                calls::mdct_fast(n, read, second, third, window, scratch)
            }
            (Transform::Imdct, Way::Naive) => {
                calls::imdct_naive(n, read, second, third, window, scratch)
            }
            (Transform::Imdct, Way::Fast) => {
                calls::imdct_fast(n, read, second, third, window, scratch)
            }
        }
    }

    // One call with marks in scratch: its answer, which should be `right`, and what it leaves of the first slice, of the window and of scratch.
    pub fn call(&mut self, call: Call, n: usize, right: Result<(), Refusal>) -> Tally
        requires { OnOk right (n ≤ 1024) }
        ensures answers { result.answers.all ≡ 1 }
        ensures lent { result.lent.all ≡ array_vec_len self.old.first.entries + array_vec_len self.old.window.entries + array_vec_len self.old.scratch }
    {
        entries::mark(&mut self.scratch);
        let answer = self.made(call, n);
        let zeros = match right {
            Ok(()) => call.way.scratch(n),
            Err(_) => 0,
        };
        let scratch = entries::compare_marks(zeros, &self.scratch);
        let kept = self.first.count() + self.window.count() + scratch;
        Tally::of_call(answer, right, kept)
    }

    // The slices to which a call can store.
    pub fn count_outputs(&self) -> Count
        ensures { result.all ≡ array_vec_len self.now.second.entries + array_vec_len self.now.third.entries }
    {
        self.second.count() + self.third.count()
    }
}
