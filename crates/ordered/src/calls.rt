// The calls that move the table alone, the restart and the tally.
ghost use Rattle.std.specs.Prelude.{◌≡◌};
ghost use Rattle.ordered_law.specs.Events.{Begin, Finish, Withdraw, Restart, Count, took, counted};
ghost use Rattle.ordered_law.specs.Cache.{begin_call, finish_call, withdraw_call, restart_call, tally};
ghost use Rattle.ordered_law.specs.Runs.{RunsOn};
ghost use Rattle.ordered.specs.Model.{model, gives, marked, accepted};

use crate::live::Live;
use disk::disk::{BLOCK, BenchDisk};
use errors::CacheError;
pub use errors::LAST_MARK;
use precedence::Precedence;
use table::held::{Change, Query, Version};
use table::tally::Tally;

impl<D: BenchDisk, P: Precedence> Live<D, P> {
    // Begins a write of the place; the answer is its ticket.
    pub fn begin(&mut self, place: usize, bytes: &[u8]) -> Result<u32, CacheError>
        ensures outcome { gives (marked result) (model D.Disk.medium self.new) ≡ begin_call place bytes.now (model D.Disk.medium self.old) }
        ensures order { self.new.order ≡ self.old.order }
        ensures runs { RunsOn (P.before self.old.order) (Begin place bytes.now) (model D.Disk.medium self.old) (marked result) (model D.Disk.medium self.new) }
    {
        let block = bytes.as_array::<BLOCK>().ok_or(CacheError::Length)?;
        if place >= self.disk.size() {
            return Err(CacheError::Place);
        }
        if self.table.any(Query::OpenAt(place)) {
            return Err(CacheError::PlaceOpen);
        }
        let row = self.table.vacant().ok_or(CacheError::NoRoom)?;
        if self.counter + self.table.count(Query::Reserving) + 2 > LAST_MARK {
            return Err(CacheError::NoMarks);
        }
        let mark = self.counter + 1;
        self.table.hold(row, Version::begin(place, block, mark));
        self.counter = mark;
        self.counts.begun += 1;
        Ok(mark)
    }

    // Finishes the open write with the ticket; the answer is its finish mark.
    pub fn finish(&mut self, ticket: u32) -> Result<u32, CacheError>
        ensures outcome { gives (marked result) (model D.Disk.medium self.new) ≡ finish_call ticket (model D.Disk.medium self.old) }
        ensures order { self.new.order ≡ self.old.order }
        ensures runs { RunsOn (P.before self.old.order) (Finish ticket) (model D.Disk.medium self.old) (marked result) (model D.Disk.medium self.new) }
    {
        if !self.table.any(Query::Ticket(ticket)) {
            return Err(CacheError::NoTicket);
        }
        let mark = self.counter + 1;
        self.table.apply(Change::Finish(ticket, mark));
        self.counter = mark;
        Ok(mark)
    }

    // Withdraws the open write with the ticket: it leaves the table.
    pub fn withdraw(&mut self, ticket: u32) -> Result<(), CacheError>
        ensures outcome { gives (accepted result) (model D.Disk.medium self.new) ≡ withdraw_call ticket (model D.Disk.medium self.old) }
        ensures order { self.new.order ≡ self.old.order }
        ensures runs { RunsOn (P.before self.old.order) (Withdraw ticket) (model D.Disk.medium self.old) (accepted result) (model D.Disk.medium self.new) }
    {
        if !self.table.any(Query::Ticket(ticket)) {
            return Err(CacheError::NoTicket);
        }
        self.table.apply(Change::Withdraw(ticket));
        self.table.apply(Change::Leave);
        self.counts.withdrawn += 1;
        Ok(())
    }

    // Cuts the disk while the cache lives: every sent write waits again.
    pub fn restart(&mut self, choice: u8)
        ensures outcome { gives (took 0) (model D.Disk.medium self.new) ≡ restart_call choice (model D.Disk.medium self.old) }
        ensures order { self.new.order ≡ self.old.order }
        ensures runs { RunsOn (P.before self.old.order) (Restart choice) (model D.Disk.medium self.old) (took 0) (model D.Disk.medium self.new) }
    {
        self.disk.cut(choice);
        self.table.apply(Change::WaitAgain);
    }

    // Where the writes stand.
    pub fn tally(&self) -> Tally
        ensures outcome { result ≡ tally (model D.Disk.medium self.now) }
        ensures runs { RunsOn (P.before self.now.order) Count (model D.Disk.medium self.now) (counted result) (model D.Disk.medium self.now) }
    {
        Tally {
            begun: self.counts.begun,
            withdrawn: self.counts.withdrawn,
            open: self.table.count(Query::Open),
            waiting: self.table.count(Query::Waiting),
            sent: self.table.count(Query::Sent),
            home: self.counts.home,
        }
    }
}
