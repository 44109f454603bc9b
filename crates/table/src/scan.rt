// The scans for one row: the ready write of lowest begin mark, and the newest finished write of a place.
ghost use Rattle.std.specs.Prelude.{◌≡◌};
ghost use Rattle.table.specs.Versions.{ready};
ghost use Rattle.table.specs.Rows.{in_rows, row_passes};
ghost use Rattle.table.specs.Scans.{in_table, lowest_ready, newest_at, Lowest};

use crate::held::{Query, Version};
use crate::rows::Table;
use precedence::{Precedence, Stamp};

// A row and the begin mark of its version.
#[derive(Clone, Copy)]
pub struct Candidate {
    pub row: usize,
    pub begin: u32,
}

// Whether the row holds a write that precedes the stamp's.
fn stops<P: Precedence>(row: &Option<Version>, order: &P, stamp: &Stamp) -> bool
    ensures { result ≡ row_passes (λ u. P.before order.now u.stamp stamp.now) row.now }
{
    matches!(row, Some(u) if order.precedes(&u.stamp, stamp))
}

// The ready row of lowest begin mark: it waits, and no write in the table precedes it.
// Two loops left by a label: the rules want the scan in this form.
// Not inlined: within its caller each candidate is compared with all 32 rows before the first of them is looked at.
#[inline(never)]
pub fn lowest_ready<P: Precedence>(table: &Table, order: &P) -> Option<Candidate>
    ensures value { result ≡ lowest_ready (P.before order.now) table.now.rows }
    ensures found { Lowest (ready (P.before order.now) (in_rows table.now.rows)) table.now.rows result }
    ensures within { in_table result }
{
    let mut best: Option<Candidate> = None;
    'candidates: for (row, held) in table.rows.iter().enumerate() {
        let Some(v) = held else {
            continue;
        };
        let begin = v.stamp.begin;
        // the scan below is the dear part
        if !Query::Waiting.passes(v) || best.is_some_and(|old| old.begin < begin) {
            continue;
        }
        for other in table.rows.iter() {
            if stops(other, order, &v.stamp) {
                continue 'candidates;
            }
        }
        best = Some(Candidate { row, begin });
    }
    best
}

// The row of the place's finished write of highest begin mark.
pub fn newest_at(table: &Table, place: usize) -> Option<Candidate>
    ensures value { result ≡ newest_at place table.now.rows }
    ensures within { in_table result }
{
    let mut best: Option<Candidate> = None;
    for (row, held) in table.rows.iter().enumerate() {
        let Some(v) = held else {
            continue;
        };
        if Query::FinishedAt(place).passes(v) && best.is_none_or(|old| old.begin < v.stamp.begin) {
            best = Some(Candidate {
                row,
                begin: v.stamp.begin,
            });
        }
    }
    best
}
