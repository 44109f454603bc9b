ghost use Rattle.std.specs.Prelude.{◌≡◌};
ghost use Rattle.listing.specs.Answers.{answer_value};

use errors::Progress;

// What an accepted call of a trace answers.
#[derive(Clone, Copy, PartialEq, Eq, Debug)]
pub enum Answer {
    // of a begin
    Ticket(u32),
    // of a finish
    Mark(u32),
    Withdrawn,
    // of the block that was read
    FirstByte(u8),
    Step(Progress),
    // the number of the group that was sealed
    Group(u32),
    Restarted,
    // an ordered cache's volume was cut and opened again
    Opened,
    // a journaled cache's volume was cut and recovered with this number
    Recovered(u32),
}

impl Answer {
    // The value that a line of the listing gives for it.
    pub fn value(self) -> u32
        ensures { result ≡ answer_value self }
    {
        match self {
            Answer::Ticket(number)
            | Answer::Mark(number)
            | Answer::Group(number)
            | Answer::Recovered(number) => number,
            Answer::FirstByte(byte) => u32::from(byte),
            Answer::Step(progress) => u32::from(progress.number()),
            Answer::Withdrawn | Answer::Restarted | Answer::Opened => 0,
        }
    }
}
