// A mark of a survey lies in two blocks: the side of the weld, and the distance off it.
#![tactic(auto)]

ghost use Rattle.std.specs.Prelude.{◌≡◌};
ghost use Rattle.mark.specs.Marks.{side_bytes, distance_bytes, mark_in, judged, ReadsBack};

use disk::disk::BLOCK;
use std::fmt;

#[derive(Clone, Copy, PartialEq, Eq, Debug)]
pub enum Side {
    Upstream,
    Downstream,
}

#[derive(Clone, Copy, PartialEq, Eq, Debug)]
pub struct Mark {
    pub side: Side,
    pub millimetres: u16,
}

// What a reader of storage takes for the mark.
#[derive(Clone, Copy, PartialEq, Eq, Debug)]
pub enum Verdict {
    Old,
    New,
    // a mark that nobody made
    Torn,
}

impl Mark {
    // The block of the side: 1 upstream, 0 downstream. The byte is made here alone and read back in `from_blocks` alone, so `Side` has no
    // conversion of its own.
    pub fn side_block(&self) -> [u8; BLOCK]
        ensures { result ≡ side_bytes self.now.side }
    {
        let mut block = [0; BLOCK];
        if let Side::Upstream = self.side {
            block[0] = 1;
        }
        block
    }

    // The block of the distance: its millimetres in two bytes, the lower first.
    pub fn distance_block(&self) -> [u8; BLOCK]
        ensures { result ≡ distance_bytes self.now.millimetres }
    {
        let mut block = [0; BLOCK];
        let [low, high] = self.millimetres.to_le_bytes();
        block[0] = low;
        block[1] = high;
        block
    }

    // The mark that two blocks show.
    pub fn from_blocks(side: &[u8; BLOCK], distance: &[u8; BLOCK]) -> Mark
        ensures value { result ≡ mark_in side.now distance.now }
        ensures back { ReadsBack side.now distance.now result }
    {
        let side = if side[0] == 1 {
            Side::Upstream
        } else {
            Side::Downstream
        };
        let millimetres = u16::from_le_bytes([distance[0], distance[1]]);
        Mark { side, millimetres }
    }

    // Whether this mark is the old one, the new one or neither.
    pub fn judge(&self, old: &Mark, new: &Mark) -> Verdict
        ensures { result ≡ judged old.now new.now self.now }
    {
        if self == new {
            Verdict::New
        } else if self == old {
            Verdict::Old
        } else {
            Verdict::Torn
        }
    }
}

// Metres with three decimals, upstream negative.
impl fmt::Display for Mark {
    fn fmt<W: fmt::Write>(&self, f: &mut fmt::Formatter<W>) -> fmt::Result {
        let sign = match self.side {
            Side::Upstream => '-',
            Side::Downstream => '+',
        };
        let metres = self.millimetres / 1000;
        let thousandths = self.millimetres % 1000;
        write!(f, "{sign}{metres}.{thousandths:03}")
    }
}

#[cfg(test)]
mod tests {
    use super::*;
    use std::test::Fail;

    #[test]
    fn metres_have_three_decimals(rt: HostRuntime) -> Result<(), Fail> {
        let near = Mark {
            side: Side::Upstream,
            millimetres: 5,
        };
        let far = Mark {
            side: Side::Downstream,
            millimetres: 12050,
        };
        assert_eq!(rt; format!(in rt.alloc(); "{near}")?.as_str(), "-0.005");
        assert_eq!(rt; format!(in rt.alloc(); "{far}")?.as_str(), "+12.050");
        Ok(())
    }
}
