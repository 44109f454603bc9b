// Which of two writes has to come home first.
#![tactic(auto)]

ghost use Rattle.std.specs.Prelude.{◌≡◌, Bool};
ghost use Rattle.precedence.specs.Stamps.{begun_at, finished_at, Lawful, overlap, line};
ghost use Rattle.precedence.specs.declared.Stamp.{Stamp};
ghost use Rattle.precedence.specs.Orders.{by_overlap, by_line};

// A write's record: its place and its marks. The finish mark is 0 while the write is open: the rules of a record have it so, and their theorems, so it is no Option.
#[derive(Clone, Copy, PartialEq, Eq, Debug)]
pub struct Stamp {
    pub place: usize,
    pub begin: u32,
    pub finish: u32,
}

impl Stamp {
    // Of a write just begun.
    pub fn begun(place: usize, mark: u32) -> Stamp
        ensures { result ≡ begun_at place mark }
    {
        Stamp {
            place,
            begin: mark,
            finish: 0,
        }
    }

    // The same, with its finish mark.
    pub fn finished(self, mark: u32) -> Stamp
        ensures { result ≡ finished_at mark self }
    {
        Stamp {
            finish: mark,
            ..self
        }
    }
}

// A precedence between writes: `before` is what an implementation means.
pub trait Precedence {
    ghost before: { Self → Stamp → Stamp → Bool };

    // Whether the first write precedes the second.
    fn precedes(&self, u: &Stamp, v: &Stamp) -> bool
        ensures { result ≡ before self.now u.now v.now };

    ghost lawful: { (p : Self) → Lawful (before p) };
}

// A write precedes those that were begun after its finish.
#[derive(Clone, Copy)]
pub struct Overlap;

impl Precedence for Overlap {
    ghost before = { λ _. overlap };

    ghost lawful = { λ p. by_overlap };

    fn precedes(&self, u: &Stamp, v: &Stamp) -> bool {
        u.finish != 0 && u.finish < v.begin
    }
}

// A write precedes those that were begun after it.
#[derive(Clone, Copy)]
pub struct Line;

impl Precedence for Line {
    ghost before = { λ _. line };

    ghost lawful = { λ p. by_line };

    fn precedes(&self, u: &Stamp, v: &Stamp) -> bool {
        u.begin < v.begin
    }
}
