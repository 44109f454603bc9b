// The marks of the trial, and what was seen of them after the cuts.
use mark::{Mark, Side, Verdict};
use std::ops::Add;

pub(crate) const OLD: Mark = Mark {
    side: Side::Downstream,
    millimetres: 2150,
};

pub(crate) const NEW: Mark = Mark {
    side: Side::Upstream,
    millimetres: 400,
};

#[derive(Clone, Copy, Default)]
pub(crate) struct Count {
    pub(crate) old: u32,
    pub(crate) new: u32,
    pub(crate) torn: u32,
    // of the torn ones, those with the new distance and the old side
    pub(crate) ahead: u32,
}

impl Count {
    // One cut, after which this mark is seen.
    pub(crate) fn of(seen: &Mark) -> Count {
        let ahead = seen.millimetres == NEW.millimetres && seen.side != NEW.side;
        let none = Count::default();
        match seen.judge(&OLD, &NEW) {
            Verdict::Old => Count { old: 1, ..none },
            Verdict::New => Count { new: 1, ..none },
            Verdict::Torn => Count {
                torn: 1,
                ahead: u32::from(ahead),
                ..none
            },
        }
    }

    pub(crate) fn cuts(&self) -> u32 {
        self.old.saturating_add(self.new).saturating_add(self.torn)
    }
}

impl Add for Count {
    type Output = Count;

    fn add(self, more: Count) -> Count {
        Count {
            old: self.old.saturating_add(more.old),
            new: self.new.saturating_add(more.new),
            torn: self.torn.saturating_add(more.torn),
            ahead: self.ahead.saturating_add(more.ahead),
        }
    }
}
