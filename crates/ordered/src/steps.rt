// The step: pick, write, settle; or flush.
ghost use Rattle.std.specs.Prelude.{◌≡◌, ◌≤◌, length};
ghost use Rattle.std.specs.Option.{option_map};
ghost use Rattle.table.specs.Versions.{reserved};
ghost use Rattle.table.specs.Rows.{in_rows};
ghost use Rattle.table.specs.Scans.{lowest_ready};
ghost use Rattle.ordered_law.specs.Events.{Step};
ghost use Rattle.ordered_law.specs.Cache.{settled_rows, flushed_rows, flushed_counts, step_call};
ghost use Rattle.ordered_law.specs.Runs.{RunsOn};
ghost use Rattle.ordered.specs.Model.{model, gives, stepped, device};
ghost use Rattle.ordered.specs.Grants.{job, jobs, handed_up};
ghost use Rattle.ordered.specs.Opening.{flush_answer, flush_leaves};
ghost use Rattle.errors.specs.declared.Progress.TheVariants as done;

use crate::live::{Grant, Live};
use disk::disk::BenchDisk;
use disk::error::DiskError;
use errors::{CacheCall, CacheError, Progress, during};
use precedence::Precedence;
use table::held::{Change, Query};
use table::rows::Table;
use table::scan::lowest_ready;

impl Grant {
    // Spends the grant: an accepted write is sent, a failed one waits on. No other row changes.
    fn settle(
        self,
        table: &mut Table,
        answer: Result<(), DiskError>,
    ) -> Result<Progress, CacheError>
        ensures answer { result ≡ handed_up done.Written answer }
        ensures rows { table.new.rows ≡ settled_rows table.old.rows self.row answer }
        ensures marks { reserved (in_rows table.new.rows) ≤ reserved (in_rows table.old.rows) }
        ensures held { length (in_rows table.new.rows) ≤ length (in_rows table.old.rows) }
    {
        let Grant {
            row,
            place: _,
            bytes: _,
        } = self;
        during(CacheCall::Step, answer)?;
        table.mark_sent(row);
        Ok(Progress::Written)
    }
}

impl<D: BenchDisk, P: Precedence> Live<D, P> {
    // The grant of the ready row of lowest begin mark.
    fn pick(&self) -> Option<Grant>
        ensures { option_map job result ≡ jobs self.now.table.rows (lowest_ready (P.before self.now.order) self.now.table.rows) }
    {
        let candidate = lowest_ready(&self.table, &self.order)?;
        Some(Grant {
            row: candidate.row,
            place: self.table.stamp(candidate.row).place,
            bytes: *self.table.bytes(candidate.row),
        })
    }

    // Flushes; then all sent writes are home, and leave the table.
    fn flush(&mut self) -> Result<Progress, CacheError>
        ensures answer { result ≡ handed_up done.Flushed (flush_answer D.Disk.attempts (D.Disk.medium self.old.disk)) }
        ensures medium { D.Disk.medium self.new.disk ≡ flush_leaves (D.Disk.medium self.old.disk) }
        ensures rows { self.new.table.rows ≡ flushed_rows self.old.table.rows (flush_answer D.Disk.attempts (D.Disk.medium self.old.disk)) }
        ensures order { self.new.order ≡ self.old.order }
        ensures counter { self.new.counter ≡ self.old.counter }
        ensures counts { self.new.counts ≡ flushed_counts self.old.table.rows self.old.counts (flush_answer D.Disk.attempts (D.Disk.medium self.old.disk)) }
    {
        during(CacheCall::Step, self.disk.flush())?;
        let sent = self.table.count(Query::Sent);
        self.table.apply(Change::BringHome);
        self.table.apply(Change::Leave);
        self.counts.home += sent;
        Ok(Progress::Flushed)
    }

    // Brings the writes on by at most one call of the disk.
    pub fn step(&mut self) -> Result<Progress, CacheError>
        ensures outcome { gives (stepped result) (model D.Disk.medium self.new) ≡ step_call (P.before self.old.order) (device D.Disk.rule D.Disk.attempts P.before self.old) (model D.Disk.medium self.old) }
        ensures order { self.new.order ≡ self.old.order }
        ensures runs { RunsOn (P.before self.old.order) Step (model D.Disk.medium self.old) (stepped result) (model D.Disk.medium self.new) }
    {
        if !self.table.any(Query::Busy) {
            return Ok(Progress::Idle);
        }
        if let Some(grant) = self.pick() {
            let answer = self.disk.write(grant.place, &grant.bytes);
            return grant.settle(&mut self.table, answer);
        }
        if !self.table.any(Query::Sent) {
            return Ok(Progress::Blocked);
        }
        self.flush()
    }
}
