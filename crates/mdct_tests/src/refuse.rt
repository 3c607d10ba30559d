// Calls that should be refused.
use answers::Refusal;
use counting::count::Tally;
use mdct_lent::call::Call;
use mdct_lent::case::Case;
use mdct_lent::lent::Block;

// The case's calls, which should all be refused for one reason and change nothing.
pub fn refused(case: Case, reason: Refusal) -> Tally {
    let mut block = Block::of_case(&case);
    let mut sum = Tally::default();
    for call in Call::ALL {
        if case.calls.has(call) {
            sum += block.call(call, case.n, Err(reason));
            sum += Tally::of_lent(block.count_outputs());
        }
    }
    sum
}
