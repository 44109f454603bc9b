ghost use Rattle.std.specs.Prelude.{◌≡◌, ℕ, ◌<◌, ◌≤◌, true, [], length, slice_index};
ghost use Rattle.std.proofs.Math.Option.{some};
ghost use Rattle.head.specs.Head.{Head as ModelHead, two_bytes, encode as encoded, decode as decoded, candidate as read_as, fits as fitting};
ghost use Rattle.head.specs.Codes.{head_of, found};

use crate::head::{Head, MOST_PLACES};
use crate::places::{are_below, are_different};
use arrayvec::ArrayVec;
use disk::disk::BLOCK;

impl Head {
    // The head of no group.
    pub fn empty(number: u32) -> Head
        ensures { head_of result ≡ record { number = number; places = [] } }
    {
        Head {
            number,
            places: ArrayVec::new(),
        }
    }

    // A head of these places.
    pub fn new(number: u32, places: ArrayVec<usize, MOST_PLACES>) -> Head
        ensures { head_of result ≡ record { number = number; places = places.items } }
    {
        Head { number, places }
    }

    // The home places.
    pub fn places(&self) -> &[usize]
        ensures { result.now ≡ (head_of self.now).places }
    {
        self.places.as_slice()
    }

    // How many they are.
    pub fn len(&self) -> usize
        ensures { result ≡ length (head_of self.now).places }
    {
        self.places.len()
    }

    // The i-th home place.
    pub fn place(&self, i: usize) -> usize
        requires { i < length (head_of self.now).places }
        ensures { result ≡ slice_index (head_of self.now).places i }
    {
        self.places[i]
    }

    // Whether the head can stand on a volume of so many home blocks.
    pub fn fits(&self, home: usize) -> bool
        ensures { result ≡ fitting home (head_of self.now) }
    {
        are_below(self.places(), home) && are_different(self.places())
    }

    // The block, byte for byte; it is read back as this head.
    pub fn encode(&self) -> [u8; BLOCK]
        ensures value { result ≡ encoded (head_of self.now) }
        ensures read_back { (n : ℕ) → n ≤ 65536 → fitting n (head_of self.now) ≡ true → decoded n result ≡ some (head_of self.now) }
    {
        let mut block = [0u8; BLOCK];
        block[0] = 1;
        block[1..5].copy_from_slice(&self.number.to_le_bytes());
        // At most eight places, so that their number fits a byte.
        block[5] = self.len() as u8;
        // By an index: no clause says what a slice ends as that `as_chunks_mut` lent.
        for (i, place) in self.places().iter().enumerate() {
            block[6 + 2 * i..8 + 2 * i].copy_from_slice(&low_bytes(*place));
        }
        block
    }
}

// The two bytes of a place; what they cannot hold is left out, and no place of a fitting head has more.
fn low_bytes(place: usize) -> [u8; 2]
    ensures { result ≡ two_bytes place }
{
    let [low, high, ..] = place.to_le_bytes();
    [low, high]
}

// What the bytes of a block would say if they were a head.
fn candidate(block: &[u8; BLOCK]) -> Head
    requires { slice_index block.now 5 ≤ 8 }
    ensures { head_of result ≡ read_as block.now }
{
    let number = u32::from_le_bytes([block[1], block[2], block[3], block[4]]);
    let mut places = ArrayVec::new();
    let (pairs, _) = block[6..].as_chunks::<2>();
    for pair in &pairs[..usize::from(block[5])] {
        places.push(usize::from(u16::from_le_bytes(*pair)));
    }
    Head::new(number, places)
}

// The head in a block, on a volume of so many home blocks; none where the block is not the encoding of a head that fits.
pub fn decode(home: usize, block: &[u8]) -> Option<Head>
    ensures value { found result ≡ decoded home block.now }
    ensures no_other { (h : ModelHead) → found result ≡ some h → (block.now ≡ encoded h) × (fitting home h ≡ true) }
    ensures every_head { (h : ModelHead) → home ≤ 65536 → block.now ≡ encoded h → fitting home h ≡ true → found result ≡ some h }
{
    let block = block.as_array::<BLOCK>()?;
    if usize::from(block[5]) > MOST_PLACES {
        return None;
    }
    let head = candidate(block);
    (head.fits(home) && head.encode() == *block).then_some(head)
}
