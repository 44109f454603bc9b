// A live volume, which takes the calls of the cache, and the grant that a step issues.
ghost use Rattle.std.specs.Prelude.{◌+◌, ◌<◌, ◌≤◌, length};
ghost use Rattle.table.specs.Versions.{reserved};
ghost use Rattle.table.specs.Rows.{in_rows};

use disk::disk::BLOCK;
use table::rows::Table;
use table::tally::Counts;

// Each call says that the order stays: what a caller says of its next call names it.
#[derive(Drop)]
pub struct Live<D, P> {
    pub(crate) disk: D,
    pub(crate) order: P,
    pub(crate) table: Table,
    // the last mark given
    pub(crate) counter: u32,
    pub(crate) counts: Counts,
    // a mark is left for each write that still takes one
    ghost marks: { counter + reserved (in_rows table.rows) ≤ 1000000 },
    // each begin took a mark
    ghost begins: { counts.begun ≤ counter },
    // no write is counted twice
    ghost sums: { counts.withdrawn + counts.home + length (in_rows table.rows) ≤ counts.begun },
}

// Leave to write one row back. It is not `Drop`: whoever holds one has to settle it.
// The bytes are a copy, since settling changes the table while the grant stands.
pub(crate) struct Grant {
    pub(crate) row: usize,
    pub(crate) place: usize,
    pub(crate) bytes: [u8; BLOCK],
    ghost in_table: { row < 32 },
}
