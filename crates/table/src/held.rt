// The versions that the table holds, and what is asked of them and done to them.
ghost use Rattle.std.specs.Prelude.{◌≡◌};
ghost use Rattle.table.specs.Versions.{begun};
ghost use Rattle.table.specs.Rows.{stamp_of, bytes_of, test, row_passes, changed};

use disk::disk::BLOCK;
use precedence::Stamp;

// Where a write stands. Open, waiting and sent ones are in the table; home and withdrawn ones leave it.
#[derive(Clone, Copy, PartialEq, Eq, Debug)]
pub enum State {
    Open,
    Waiting,
    Sent,
    Home,
    Withdrawn,
}

// One version of a block, from its begin on.
#[derive(Clone, Copy)]
pub struct Version {
    pub stamp: Stamp,
    pub bytes: [u8; BLOCK],
    pub state: State,
}

impl Version {
    // An open version, just begun.
    pub fn begin(place: usize, bytes: &[u8; BLOCK], mark: u32) -> Version
        ensures { result ≡ begun place bytes.now mark }
    {
        Version {
            stamp: Stamp::begun(place, mark),
            bytes: *bytes,
            state: State::Open,
        }
    }
}

// The stamp of the version in a row, all zero where the row is vacant.
pub fn stamp_of(row: &Option<Version>) -> Stamp
    ensures { result ≡ stamp_of row.now }
{
    match row {
        None => Stamp::begun(0, 0),
        Some(v) => v.stamp,
    }
}

// The bytes of the version in a row, all zero where the row is vacant.
pub fn bytes_of(row: &Option<Version>) -> &[u8; BLOCK]
    ensures { result.now ≡ bytes_of row.now }
{
    match row {
        None => &[0; BLOCK],
        Some(v) => &v.bytes,
    }
}

// What a scan of the table looks for. An enum and no closure: contracts name the query, and no caller has to show what it answers.
#[derive(Clone, Copy)]
pub enum Query {
    // an open write of this place
    OpenAt(usize),
    // the open write with this ticket
    Ticket(u32),
    Open,
    // a write for whose finish mark room is kept
    Reserving,
    Waiting,
    Sent,
    // waiting or sent
    Busy,
    // a finished write of this place
    FinishedAt(usize),
}

impl Query {
    // Whether the row holds what is looked for.
    pub(crate) fn finds(self, row: &Option<Version>) -> bool
        ensures { result ≡ row_passes (test self) row.now }
    {
        matches!(row, Some(v) if self.passes(v))
    }

    // Whether the version is looked for.
    pub(crate) fn passes(self, v: &Version) -> bool
        ensures { result ≡ test self v.now }
    {
        match self {
            Query::OpenAt(place) => v.state == State::Open && v.stamp.place == place,
            Query::Ticket(ticket) => v.state == State::Open && v.stamp.begin == ticket,
            Query::Open => v.state == State::Open,
            Query::Reserving => v.state == State::Open,
            Query::Waiting => v.state == State::Waiting,
            Query::Sent => v.state == State::Sent,
            Query::Busy => v.state == State::Waiting || v.state == State::Sent,
            Query::FinishedAt(place) => {
                matches!(v.state, State::Waiting | State::Sent | State::Home)
                    && v.stamp.place == place
            }
        }
    }
}

// What is done to a row. An enum and no closure: contracts name the change, and no caller has to show what it leaves.
#[derive(Clone, Copy)]
pub enum Change {
    // the open write with this ticket gets this finish mark, and waits
    Finish(u32, u32),
    // the open write with this ticket is withdrawn
    Withdraw(u32),
    // the write is sent
    Send,
    // a sent write is home
    BringHome,
    // a sent write waits again
    WaitAgain,
    // a home or withdrawn write leaves its row
    Leave,
}

impl Change {
    // Changes the row where it lies: it holds a block, and most changes leave that alone.
    pub(crate) fn on(self, row: &mut Option<Version>)
        ensures { row.new ≡ changed self row.old }
    {
        let Some(v) = row else {
            return;
        };
        match self {
            Change::Finish(ticket, mark) => {
                if v.state == State::Open && v.stamp.begin == ticket {
                    v.stamp = v.stamp.finished(mark);
                    v.state = State::Waiting;
                }
            }
            Change::Withdraw(ticket) => {
                if v.state == State::Open && v.stamp.begin == ticket {
                    v.state = State::Withdrawn;
                }
            }
            Change::Send => v.state = State::Sent,
            Change::BringHome => {
                if v.state == State::Sent {
                    v.state = State::Home;
                }
            }
            Change::WaitAgain => {
                if v.state == State::Sent {
                    v.state = State::Waiting;
                }
            }
            Change::Leave => {
                if matches!(v.state, State::Home | State::Withdrawn) {
                    *row = None;
                }
            }
        }
    }
}
