ghost use Rattle.std.specs.Prelude.{◌≡◌, ◌≤◌, length};

use crate::entry::Entry;
use head::head::MOST_PLACES;

// The rows below the count are held, in the order in which they came.
// An array with a count: an ArrayVec is no Copy, and writes a blank over each row that leaves.
#[derive(Clone, Copy)]
pub struct Batch {
    pub(crate) rows: [Entry; MOST_PLACES],
    pub(crate) count: usize,
    ghost few: { count ≤ 8 },
    ghost full: { length rows ≡ 8 },
}
