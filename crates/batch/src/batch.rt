ghost use Rattle.std.specs.Prelude.{◌≡◌, ◌==◌, ◌<◌, false, [], ◌∷◌, ◌++◌, length, position, slice_index_or};
ghost use Rattle.std.specs.Option.{option_map};
ghost use Rattle.head.specs.Head.{holds as among};
ghost use Rattle.journal_law.specs.Cache.{find as found_open, without, collect as collected, cached};
ghost use Rattle.batch.specs.Rows.{no_entry, entries, begun_list, write_list, place_list, place_in, begun_in, write_in, outside as places_outside};
ghost use Rattle.batch.specs.Options.{maybe};

use crate::entry::Entry;
use crate::rows::Batch;
use arrayvec::ArrayVec;
use disk::disk::BLOCK;
use head::head::MOST_PLACES;

impl Batch {
    pub fn new() -> Batch
        ensures { entries result ≡ [] }
    {
        Batch {
            rows: [Entry {
                mark: 0,
                place: 0,
                bytes: [0; BLOCK],
            }; MOST_PLACES],
            count: 0,
        }
    }

    pub fn len(&self) -> usize
        ensures { result ≡ length (entries self.now) }
    {
        self.count
    }

    // The first row at the place.
    fn row(&self, place: usize) -> Option<usize>
        ensures { result ≡ position (λ e. place_in e == place) (entries self.now) }
    {
        self.rows[..self.count]
            .iter()
            .position(|entry| entry.place == place)
    }

    // Whether some write is at the place.
    pub fn holds(&self, place: usize) -> bool
        ensures { result ≡ among place (place_list self.now) }
    {
        self.row(place).is_some()
    }

    // The i-th write.
    pub fn entry(&self, i: usize) -> &Entry
        requires { i < length (entries self.now) }
        ensures { result.now ≡ slice_index_or (entries self.now) i no_entry }
    {
        &self.rows[i]
    }

    // The bytes of the write at the place.
    pub fn bytes_at(&self, place: usize) -> Option<&[u8; BLOCK]>
        ensures { maybe (option_map (λ b. b.now) result) ≡ cached place (write_list self.now) }
    {
        let row = self.row(place)?;
        Some(&self.rows[row].bytes)
    }

    // One more write, behind the others.
    pub fn push(&mut self, entry: Entry)
        requires { length (entries self.old) < 8 }
        ensures { entries self.new ≡ entries self.old ++ entry ∷ [] }
    {
        self.rows[self.count] = entry;
        self.count += 1;
    }

    // Every write leaves the batch.
    pub fn clear(&mut self)
        ensures { entries self.new ≡ [] }
    {
        self.count = 0;
    }

    // The write with the mark leaves the batch; those behind it move up.
    pub fn take(&mut self, mark: u32) -> Option<Entry>
        ensures taken { maybe (option_map begun_in result) ≡ found_open mark (begun_list self.old) }
        ensures rest { begun_list self.new ≡ without mark (begun_list self.old) }
    {
        let row = self.rows[..self.count]
            .iter()
            .position(|entry| entry.mark == mark)?;
        let entry = self.rows[row];
        self.rows.copy_within(row + 1..self.count, row);
        self.count -= 1;
        Some(entry)
    }

    // A write at a place that is held takes that row; any other comes behind the rest.
    pub fn collect(&mut self, entry: Entry)
        requires { among entry.place (place_list self.old) ≡ false → length (entries self.old) < 8 }
        ensures { write_list self.new ≡ collected (write_in entry) (write_list self.old) }
    {
        match self.row(entry.place) {
            Some(row) => self.rows[row] = entry,
            None => self.push(entry),
        }
    }

    // The places, in order.
    pub fn places(&self) -> ArrayVec<usize, MOST_PLACES>
        ensures { result.items ≡ place_list self.now }
    {
        // A loop: `collect` into an ArrayVec takes an allocator and answers a Result.
        let mut places = ArrayVec::new();
        for entry in &self.rows[..self.count] {
            places.push(entry.place);
        }
        places
    }

    // How many writes are at places that the other batch does not hold.
    pub fn outside(&self, other: &Batch) -> usize
        ensures { result ≡ places_outside (place_list self.now) (place_list other.now) }
    {
        self.rows[..self.count]
            .iter()
            .filter(|entry| !other.holds(entry.place))
            .count()
    }
}
