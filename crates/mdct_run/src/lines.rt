// The lines of calls that should be accepted.
use counting::count::Tally;
use counting::lines::Accepted;

// What is said of their outputs.
pub fn accepted(tally: Tally, outputs: &str) -> Accepted<'_> {
    Accepted {
        tally,
        outputs,
        lent: "entries that are read or of scratch are as they should be",
    }
}

// Of the naive and the fast way on the same entries.
pub fn agreed(tally: Tally) -> Accepted<'static> {
    accepted(tally, "entries of the last two slices are the same by both")
}
