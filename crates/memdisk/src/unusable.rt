// A making that is refused hands the memory and the plan back.
ghost use Rattle.std.specs.Prelude.{◌≡◌};
ghost use Rattle.memdisk.specs.Making.{unusable_number};

// The memory is not 1 to 4,096 whole blocks, or a byte of the plan is above 1.
#[derive(Debug, Drop)]
pub struct Unusable {
    pub memory: Vec<u8>,
    pub plan: Vec<u8>,
}

impl Unusable {
    pub fn number(&self) -> u8
        ensures { result ≡ unusable_number }
    {
        13
    }
}
