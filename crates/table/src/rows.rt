// The table itself.
ghost use Rattle.std.specs.Prelude.{◌≡◌, ◌+◌, ◌<◌, ◌≤◌, map, length, replicate, filter, slice_set, slice_index_or};
ghost use Rattle.table.specs.Versions.{some_pass, reserved, gone_count};
ghost use Rattle.table.specs.Rows.{in_rows, stamp_of, bytes_of, test, changed, finishes, ending, leaving, mark_sent, Vacancy};

use crate::held::{Change, Query, Version, bytes_of, stamp_of};
use disk::disk::BLOCK;
use precedence::Stamp;

pub const ROWS: usize = 32;

#[derive(Clone, Copy)]
pub struct Table {
    pub rows: [Option<Version>; ROWS],
    ghost full: { length rows ≡ 32 },
}

impl Table {
    // An empty table.
    pub fn new() -> Table
        ensures { result.rows ≡ replicate 32 None }
    {
        Table { rows: [None; ROWS] }
    }

    // Whether some row holds what is looked for.
    pub fn any(&self, query: Query) -> bool
        ensures { result ≡ some_pass (test query) (in_rows self.now.rows) }
    {
        self.rows.iter().any(|row| query.finds(row))
    }

    // How many rows hold what is looked for.
    // Inlined, so that the query is known there and is not asked at each row.
    #[inline]
    pub fn count(&self, query: Query) -> u32
        ensures { result ≡ length (filter (test query) (in_rows self.now.rows)) }
    {
        let found = self.rows.iter().filter(|row| query.finds(row));
        found.count() as u32
    }

    // The row for one more write, if there is room: the first vacant one.
    pub fn vacant(&self) -> Option<usize>
        ensures { Vacancy self.now.rows result }
    {
        self.rows.iter().position(Option::is_none)
    }

    // The stamp of the version in row i, all zero where the row is vacant.
    pub fn stamp(&self, i: usize) -> Stamp
        requires { i < 32 }
        ensures { result ≡ stamp_of (slice_index_or self.now.rows i None) }
    {
        stamp_of(&self.rows[i])
    }

    // The bytes of the version in row i, all zero where the row is vacant.
    pub fn bytes(&self, i: usize) -> &[u8; BLOCK]
        requires { i < 32 }
        ensures { result.now ≡ bytes_of (slice_index_or self.now.rows i None) }
    {
        bytes_of(&self.rows[i])
    }

    // Row i holds the version.
    pub fn hold(&mut self, i: usize, version: Version)
        requires { i < 32 }
        ensures { self.new.rows ≡ slice_set self.old.rows i (Some version) }
    {
        self.rows[i] = Some(version);
    }

    // Row i is sent, and no other row changes.
    pub fn mark_sent(&mut self, i: usize)
        requires { i < 32 }
        ensures after { self.new.rows ≡ mark_sent self.old.rows i }
        ensures marks { reserved (in_rows self.new.rows) ≤ reserved (in_rows self.old.rows) }
        ensures held { length (in_rows self.new.rows) ≤ length (in_rows self.old.rows) }
    {
        Change::Send.on(&mut self.rows[i]);
    }

    // The change, on every row.
    pub fn apply(&mut self, change: Change)
        ensures after { self.new.rows ≡ map (changed change) self.old.rows }
        ensures marks { reserved (in_rows self.new.rows) + finishes change (in_rows self.old.rows) ≤ reserved (in_rows self.old.rows) }
        ensures ends { ending change (in_rows self.old.rows) ≤ gone_count (in_rows self.new.rows) }
        ensures room { length (in_rows self.new.rows) + leaving change (in_rows self.old.rows) ≤ length (in_rows self.old.rows) }
    {
        for row in self.rows.iter_mut() {
            change.on(row);
        }
    }
}
