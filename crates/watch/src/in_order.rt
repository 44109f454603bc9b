// The ordered cache's table, followed.
ghost use Rattle.std.specs.Prelude.{◌≡◌};
ghost use Rattle.table.specs.Versions.{withdraw_one};
ghost use Rattle.table.specs.Rows.{no_rows, change, leave};
ghost use Rattle.table.specs.Scans.{lowest_ready};
ghost use Rattle.watch.specs.InOrder.{Followed, with_rows, begun_rows, written_place, sent_rows, stepped_rows, stepped_deed, rows_after, deed_in_order};

use crate::watch::Watch;
use disk::disk::BLOCK;
use narration::deed::Deed;
use precedence::Precedence;
use std::marker::Model;
use table::held::{Change, Version};
use table::rows::Table;
use table::scan::lowest_ready;
use trace::call::TraceCall;

// The answers of a step that wrote, and of one that flushed.
const WRITTEN: u32 = 1;

const FLUSHED: u32 = 2;

#[derive(Drop)]
pub struct OrderedWatch<P> {
    order: P,
    table: Table,
}

impl<P> Model for OrderedWatch<P> {
    ghost Value = { Followed P };

    ghost view = { λ w. record { order = w.order; rows = w.table.rows } };
}

impl<P: Precedence> OrderedWatch<P> {
    // A cache just opened.
    pub fn new(order: P) -> OrderedWatch<P>
        ensures { result ≡ record { order = order; rows = no_rows } }
    {
        OrderedWatch {
            order,
            table: Table::new(),
        }
    }

    // One more open write, in the lowest vacant row.
    fn begun(&mut self, place: usize, fill: u8, mark: u32)
        ensures { self.new ≡ with_rows self.old (begun_rows place fill mark self.old.rows) }
    {
        if let Some(row) = self.table.vacant() {
            self.table
                .hold(row, Version::begin(place, &[fill; BLOCK], mark));
        }
    }

    // The open write with the ticket leaves the table.
    fn withdrawn(&mut self, ticket: u32)
        ensures { self.new ≡ with_rows self.old (leave (change (withdraw_one ticket) self.old.rows)) }
    {
        self.table.apply(Change::Withdraw(ticket));
        self.table.apply(Change::Leave);
    }

    // Sends the row that the cache's step has sent.
    fn sent(&mut self) -> Option<Deed>
        ensures told { result ≡ written_place (lowest_ready (P.before self.old.order) self.old.rows) self.old.rows }
        ensures after { self.new ≡ with_rows self.old (sent_rows (lowest_ready (P.before self.old.order) self.old.rows) self.old.rows) }
    {
        let ready = lowest_ready(&self.table, &self.order)?;
        let stamp = self.table.stamp(ready.row);
        self.table.mark_sent(ready.row);
        Some(Deed::Place(stamp.place))
    }

    // The step's answer says that it wrote, flushed or did nothing.
    fn stepped(&mut self, value: u32) -> Option<Deed>
        ensures told { result ≡ stepped_deed (P.before self.old.order) value self.old.rows }
        ensures after { self.new ≡ with_rows self.old (stepped_rows (P.before self.old.order) value self.old.rows) }
    {
        if value == WRITTEN {
            return self.sent();
        }
        if value == FLUSHED {
            self.table.apply(Change::BringHome);
            self.table.apply(Change::Leave);
        }
        None
    }
}

impl<P: Precedence> Watch for OrderedWatch<P> {
    ghost deed = { λ w call value. deed_in_order (P.Precedence.before w.order) call value w.rows };

    ghost moves = { λ w call value after. after ≡ with_rows w (rows_after (P.Precedence.before w.order) call value w.rows) };

    fn note(&mut self, call: TraceCall, value: u32) -> Option<Deed> {
        match call {
            TraceCall::Begin { place, fill } => self.begun(usize::from(place), fill, value),
            TraceCall::Finish { ticket } => {
                self.table.apply(Change::Finish(u32::from(ticket), value));
            }
            TraceCall::Withdraw { ticket } => self.withdrawn(u32::from(ticket)),
            TraceCall::Step => return self.stepped(value),
            TraceCall::Restart { choice: _ } => self.table.apply(Change::WaitAgain),
            TraceCall::Cut { choice: _ } => self.table = Table::new(),
            TraceCall::Read { place: _ } | TraceCall::Seal => {}
        }
        None
    }
}
