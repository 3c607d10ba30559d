// One call in place, which is lent a buffer and scratch.
ghost use Rattle.std.specs.Prelude.{◌≡◌, ◌+◌, length};

use answers::Refusal;
use counting::count::Tally;
use counting::entries;

pub trait Call: Copy {
    fn call(self, n: usize, buffer: &mut [u32], scratch: &mut [u32]) -> Result<(), Refusal>;

    // A call of all of the buffer's entries, which should be accepted and zero as much of scratch.
    final fn accepted(self, buffer: &mut [u32], scratch: &mut [u32]) -> Tally
        ensures answers { result.answers.all ≡ 1 }
        ensures lent { result.lent.all ≡ length scratch.old }
    {
        entries::mark(scratch);
        let n = buffer.len();
        let answer = self.call(n, buffer, scratch);
        Tally::of_call(answer, Ok(()), entries::compare_marks(n, scratch))
    }

    // A call that should give one answer and change nothing. The buffer holds what `before` does.
    final fn refused(
        self,
        n: usize,
        right: Result<(), Refusal>,
        buffer: &mut [u32],
        before: &[u32],
        scratch: &mut [u32],
    ) -> Tally
        requires { length buffer.old ≡ length before.now }
        ensures answers { result.answers.all ≡ 1 }
        ensures lent { result.lent.all ≡ length buffer.old + length scratch.old }
    {
        entries::mark(scratch);
        let answer = self.call(n, buffer, scratch);
        let kept = entries::compare(buffer, before) + entries::compare_marks(0, scratch);
        Tally::of_call(answer, right, kept)
    }
}
