ghost use Rattle.std.specs.Prelude.{Some};
ghost use Rattle.narration.specs.Words.{deed_text};

use std::fmt;

// What a step wrote.
#[derive(Clone, Copy)]
pub enum Deed {
    // a block of the cache's
    Place(usize),
    // a slot of the journal, from 1
    Slot(usize),
    // the head that names a group
    Head,
    // the head that names none
    EmptyHead,
}

impl fmt::Display for Deed {
    ghost output = { λ d. Some (deed_text d) };

    fn fmt<W: fmt::Write>(&self, f: &mut fmt::Formatter<W>) -> fmt::Result {
        match self {
            Deed::Place(place) => write!(f, "place {place}"),
            Deed::Slot(slot) => write!(f, "slot {slot}"),
            Deed::Head => write!(f, "the head"),
            Deed::EmptyHead => write!(f, "the empty head"),
        }
    }
}
