// The journaled cache's writes and its group, followed.
ghost use Rattle.std.specs.Prelude.{◌≡◌, ◌<◌, true, false, length};
ghost use Rattle.journal_law.specs.Cache.{find, without};
ghost use Rattle.batch.specs.Rows.{entries, write_list, place_list};
ghost use Rattle.head.specs.Head.{holds};
ghost use Rattle.group.specs.Phases.{fitting, in_turn};
ghost use Rattle.watch.specs.InJournal.{Followed, followed, unfollowed, with_writes, in_phase, opens_more, has_room, collected_more, phase_deed, phase_after, step_deed, sealed, phase_restarted, followed_after, deed_in_journal};

use crate::watch::Watch;
use batch::entry::Entry;
use batch::rows::Batch;
use disk::disk::BLOCK;
use group::phase::Phase;
use group::turn::advance;
use head::head::MOST_PLACES;
use narration::deed::Deed;
use std::marker::Model;
use trace::call::TraceCall;

// The open writes, the collected ones, and the group's with its phase, if one is under way.
#[derive(Drop)]
pub struct JournalWatch {
    opens: Batch,
    collected: Batch,
    group: Batch,
    phase: Option<Phase>,
}

impl Model for JournalWatch {
    ghost Value = { Followed };

    ghost view = { λ w. followed w.opens w.collected w.group w.phase };

    ghost invariant = { λ w. fitting w.phase (length (entries w.group)) ≡ true };
}

// Whether a write of the place can be collected.
fn has_room(collected: &Batch, place: usize) -> bool
    ensures value { result ≡ has_room place (write_list collected.now) }
    ensures fits { result ≡ true → holds place (place_list collected.now) ≡ false → length (entries collected.now) < 8 }
{
    collected.holds(place) || collected.len() < MOST_PLACES
}

// What the call of the phase writes, if it writes.
fn deed(group: &Batch, phase: Phase) -> Option<Deed>
    requires { in_turn phase (length (entries group.now)) ≡ true }
    ensures { result ≡ phase_deed (write_list group.now) phase }
{
    match phase {
        Phase::Slot(i) => Some(Deed::Slot(i + 1)),
        Phase::Head => Some(Deed::Head),
        Phase::Home(i) => Some(Deed::Place(group.entry(i).place)),
        Phase::Empty => Some(Deed::EmptyHead),
        Phase::SlotsFlush | Phase::HeadFlush | Phase::HomesFlush | Phase::EmptyFlush => None,
    }
}

impl JournalWatch {
    // A cache just recovered.
    pub fn new() -> JournalWatch
        ensures { result ≡ unfollowed }
    {
        JournalWatch {
            opens: Batch::new(),
            collected: Batch::new(),
            group: Batch::new(),
            phase: None,
        }
    }

    fn begun(&mut self, place: usize, fill: u8, mark: u32)
        ensures { self.new ≡ with_writes self.old (opens_more place fill mark self.old.open_writes) self.old.collected }
    {
        if self.opens.len() < MOST_PLACES {
            self.opens.push(Entry::new(mark, place, &[fill; BLOCK]));
        }
    }

    fn finished(&mut self, ticket: u32)
        ensures { self.new ≡ with_writes self.old (without ticket self.old.open_writes) (collected_more (find ticket self.old.open_writes) self.old.collected) }
    {
        if let Some(entry) = self.opens.take(ticket) {
            if has_room(&self.collected, entry.place) {
                self.collected.collect(entry);
            }
        }
    }

    fn withdrawn(&mut self, ticket: u32)
        ensures { self.new ≡ with_writes self.old (without ticket self.old.open_writes) self.old.collected }
    {
        let _ = self.opens.take(ticket);
    }

    // A step made the call of its phase, if a group is under way.
    fn stepped(&mut self) -> Option<Deed>
        ensures told { result ≡ step_deed self.old.group self.old.phase }
        ensures after { self.new ≡ in_phase self.old (phase_after (length self.old.group) self.old.phase) }
    {
        let phase = self.phase?;
        let deed = deed(&self.group, phase);
        if let Ok(turn) = advance(phase, self.group.len(), Ok(())) {
            self.phase = turn.phase;
        }
        deed
    }

    // The collected writes become the group.
    fn sealed(&mut self)
        ensures { self.new ≡ sealed self.old }
    {
        if self.collected.len() > 0 {
            self.group = self.collected;
            self.phase = Some(Phase::Slot(0));
            self.collected.clear();
        }
    }

    fn restarted(&mut self)
        ensures { self.new ≡ in_phase self.old (phase_restarted self.old.phase) }
    {
        if let Some(phase) = self.phase {
            self.phase = Some(phase.restarted());
        }
    }
}

impl Watch for JournalWatch {
    ghost deed = { λ w call _. deed_in_journal call w };

    ghost moves = { λ w call value after. after ≡ followed_after call value w };

    fn note(&mut self, call: TraceCall, value: u32) -> Option<Deed> {
        match call {
            TraceCall::Begin { place, fill } => self.begun(usize::from(place), fill, value),
            TraceCall::Finish { ticket } => self.finished(u32::from(ticket)),
            TraceCall::Withdraw { ticket } => self.withdrawn(u32::from(ticket)),
            TraceCall::Step => return self.stepped(),
            TraceCall::Seal => self.sealed(),
            TraceCall::Restart { choice: _ } => self.restarted(),
            TraceCall::Cut { choice: _ } => *self = JournalWatch::new(),
            TraceCall::Read { place: _ } => {}
        }
        None
    }
}
