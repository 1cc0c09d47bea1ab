// What making a source came to.
use sources::RowFault;

// The number of the refusal, or 0 where the source was made: the tests compare these numbers.
pub fn refusal<S: Drop>(res: Result<S, RowFault>) -> u8 {
    res.err().map_or(0, RowFault::number)
}
