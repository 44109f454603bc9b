ghost use Rattle.std.specs.Prelude.{◌≡◌, ℕ, true};
ghost use Rattle.journal_law.specs.Cache.{restarted_phase};
ghost use Rattle.group.specs.Phases.{phase_of, in_turn};

// The disk call that a sealed group makes next; slots and homes in turn, from 0.
#[derive(Clone, Copy)]
pub enum Phase {
    Slot(usize),
    SlotsFlush,
    Head,
    HeadFlush,
    Home(usize),
    HomesFlush,
    Empty,
    EmptyFlush,
}

impl Phase {
    // Where a restart goes back to: the first slot until the commit, the first home place until the homes are flushed, the empty head after.
    pub fn restarted(self) -> Phase
        ensures phase { phase_of result ≡ restarted_phase (phase_of self) }
        ensures within { (blocks : ℕ) → in_turn self blocks ≡ true → in_turn result blocks ≡ true }
    {
        match self {
            Phase::Slot(_) | Phase::SlotsFlush | Phase::Head | Phase::HeadFlush => Phase::Slot(0),
            Phase::Home(_) | Phase::HomesFlush => Phase::Home(0),
            Phase::Empty | Phase::EmptyFlush => Phase::Empty,
        }
    }
}
