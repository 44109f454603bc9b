// What a cache counts of its writes.

// What the rows do not show: how many writes were begun, and how many have left the table, and how.
#[derive(Clone, Copy, Default)]
pub struct Counts {
    pub begun: u32,
    pub withdrawn: u32,
    pub home: u32,
}

// Where the writes stand.
#[derive(Clone, Copy, PartialEq, Eq, Debug)]
pub struct Tally {
    pub begun: u32,
    pub withdrawn: u32,
    pub open: u32,
    pub waiting: u32,
    pub sent: u32,
    pub home: u32,
}
