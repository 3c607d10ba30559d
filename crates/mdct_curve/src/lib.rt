// Overlapped blocks, there and back: the MDCTs of neighbouring segments of a curve, with a segment of zeros before the first and after the last, and the IMDCTs of all of these
// added up, which should be the curve.
#![tactic(auto)]

ghost use Rattle.std.specs.Prelude.{◌≡◌, ◌*◌, ◌≤◌, length};
ghost use Rattle.arrayvec.specs.ArrayVec.{array_vec_len};

use arrayvec::ArrayVec;
use counting::count::{Count, Tally};
use counting::entries;
use counting::entries::ROOM;
use mdct_lent::call::{Call, Transform, Way};
use mdct_lent::case::{Case, Shape};
use mdct_lent::lent;
use mdct_lent::lent::{Block, Lent, copied};

// Six segments of the largest size.
const LONGEST: usize = 6144;

// By which calls, under which window and in blocks of which size.
#[derive(Clone, Copy, Debug)]
pub struct Curve {
    pub way: Way,
    pub shape: Shape,
    pub n: usize,
    ghost allowed: { (1 ≤ n) × (n ≤ 1024) },
}

impl Curve {
    // Four segments of residues as if by chance, between two of zeros.
    fn samples(&self) -> ArrayVec<u32, LONGEST>
        ensures { array_vec_len result ≡ 6 * self.now.n }
    {
        let mut samples = ArrayVec::from_array_in((), [0; LONGEST]);
        samples.truncate(6 * self.n);
        entries::fill(51, &mut samples[self.n..5 * self.n]);
        samples
    }

    fn call(&self, transform: Transform) -> Call {
        Call {
            transform,
            way: self.way,
        }
    }

    // Three slices, with the window and scratch that go with them.
    fn lend(&self, first: Lent, second: Lent, third: Lent) -> Block {
        let case = Case {
            shape: self.shape,
            ..Case::of_size(self.n)
        };
        Block {
            first,
            second,
            third,
            window: lent::window(&case),
            scratch: entries::zeros(case.scratch.entries),
        }
    }

    // The MDCT of a segment and the one after it, and the IMDCT of that. It adds to what the block before left, which then should be the segment, and to zeros, which it leaves
    // to the next block.
    fn block(&self, segment: Lent, after: &[u32]) -> (Tally, Lent)
        requires { length after.now ≤ ROOM }
    {
        let first = Lent::kept(copied(&segment.right));
        let second = Lent::kept(copied(after));
        // No residues: MDCT overwrites its output.
        let mut output = entries::zeros(self.n);
        output.fill(u32::MAX);
        let mut there = self.lend(first, second, Lent::kept(output));
        let mdct = there.call(self.call(Transform::Mdct), self.n, Ok(()));
        let output = there.third;
        let coefficients = Lent::kept(output.entries);
        let next = Lent::zeros(copied(after));
        let mut back = self.lend(coefficients, segment, next);
        let imdct = back.call(self.call(Transform::Imdct), self.n, Ok(()));
        let tally = (mdct + imdct).with_outputs(back.second.count());
        (tally, back.third)
    }

    // All blocks.
    pub fn there_and_back(&self) -> Tally {
        let samples = self.samples();
        let (before, curve) = samples.split_at(self.n);
        let mut segment = Lent::zeros(copied(before));
        let mut sum = Tally::default();
        for (place, after) in curve.chunks_exact(self.n).enumerate() {
            let (tally, next) = self.block(segment, after);
            // The zeros before the curve are none of its samples.
            sum += if place == 0 {
                tally.with_outputs(Count::default())
            } else {
                tally
            };
            segment = next;
        }
        sum
    }
}
