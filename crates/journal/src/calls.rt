// The calls that move the tables alone.
ghost use Rattle.std.specs.Prelude.{◌≡◌, ◌<◌, false, ◌∷◌, ◌++◌, map};
ghost use Rattle.head.specs.Head.{holds};
ghost use Rattle.journal_law.specs.Cache.{begin as begin_call, finish as finish_call, withdraw as withdraw_call, seal as seal_call, place_of, begun_place, different};
ghost use Rattle.journal_law.specs.Laws.{RunsOn};
ghost use Rattle.batch.specs.Rows.{begun_list, write_list};
ghost use Rattle.journal.specs.Model.{model, does, marked, done};

use crate::live::Live;
use batch::entry::Entry;
use disk::disk::{BLOCK, BenchDisk};
use errors::CacheError;
pub use errors::LAST_MARK;
use group::under_way::UnderWay;
use head::head::MOST_PLACES;

// No group has a higher number.
pub const LAST_NUMBER: u32 = 4_294_967_295;

impl<D: BenchDisk> Live<D> {
    // How many different places would be collected or open with this one, at which no write is open.
    fn places_with(&self, place: usize) -> usize
        requires inside { place < self.now.home }
        requires fresh { holds place (map begun_place (begun_list self.now.opens)) ≡ false }
        ensures { result ≡ different self.now.home (place ∷ (map place_of (write_list self.now.collected) ++ map begun_place (begun_list self.now.opens))) }
    {
        let taken = self.collected.len() + self.opens.outside(&self.collected);
        if self.collected.holds(place) {
            taken
        } else {
            taken + 1
        }
    }

    // Begins a write of the place; the answer is its ticket.
    pub fn begin(&mut self, place: usize, bytes: &[u8]) -> Result<u32, CacheError>
        ensures outcome { record { answer = marked result; live = model D.Disk.medium self.new } ≡ does D.Disk.medium D.Disk.rule D.Disk.attempts self.old (begin_call place bytes.now) }
        ensures runs { RunsOn (begin_call place bytes.now) (model D.Disk.medium self.old) (marked result) (model D.Disk.medium self.new) }
    {
        let block = bytes.as_array::<BLOCK>().ok_or(CacheError::Length)?;
        if place >= self.home {
            return Err(CacheError::Place);
        }
        if self.opens.holds(place) {
            return Err(CacheError::PlaceOpen);
        }
        if self.places_with(place) > MOST_PLACES {
            return Err(CacheError::NoRoom);
        }
        // At most eight writes are open, so that their number fits a mark.
        if self.counter + self.opens.len() as u32 + 2 > LAST_MARK {
            return Err(CacheError::NoMarks);
        }
        let mark = self.counter + 1;
        self.opens.push(Entry::new(mark, place, block));
        self.counter = mark;
        Ok(mark)
    }

    // Finishes the open write with the ticket; the answer is its finish mark.
    pub fn finish(&mut self, ticket: u32) -> Result<u32, CacheError>
        ensures outcome { record { answer = marked result; live = model D.Disk.medium self.new } ≡ does D.Disk.medium D.Disk.rule D.Disk.attempts self.old (finish_call ticket) }
        ensures runs { RunsOn (finish_call ticket) (model D.Disk.medium self.old) (marked result) (model D.Disk.medium self.new) }
    {
        let entry = self.opens.take(ticket).ok_or(CacheError::NoTicket)?;
        let finish = self.counter + 1;
        self.collected.collect(entry);
        self.counter = finish;
        Ok(finish)
    }

    // Withdraws the open write with the ticket.
    pub fn withdraw(&mut self, ticket: u32) -> Result<(), CacheError>
        ensures outcome { record { answer = done result; live = model D.Disk.medium self.new } ≡ does D.Disk.medium D.Disk.rule D.Disk.attempts self.old (withdraw_call ticket) }
        ensures runs { RunsOn (withdraw_call ticket) (model D.Disk.medium self.old) (done result) (model D.Disk.medium self.new) }
    {
        self.opens.take(ticket).ok_or(CacheError::NoTicket)?;
        Ok(())
    }

    // The collected blocks become the sealed group; its number is the answer.
    pub fn seal(&mut self) -> Result<u32, CacheError>
        ensures outcome { record { answer = marked result; live = model D.Disk.medium self.new } ≡ does D.Disk.medium D.Disk.rule D.Disk.attempts self.old seal_call }
        ensures runs { RunsOn seal_call (model D.Disk.medium self.old) (marked result) (model D.Disk.medium self.new) }
    {
        if self.group.is_some() {
            return Err(CacheError::GroupUnderWay);
        }
        if self.collected.len() == 0 {
            return Err(CacheError::NothingCollected);
        }
        if self.last >= LAST_NUMBER {
            return Err(CacheError::NoNumbers);
        }
        let number = self.last + 1;
        self.group = Some(UnderWay::new(number, self.collected));
        self.collected.clear();
        self.last = number;
        Ok(number)
    }
}
