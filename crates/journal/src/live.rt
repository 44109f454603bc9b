ghost use Rattle.std.specs.Prelude.{◌≡◌, ◌+◌, ◌≤◌, true, ◌++◌, map, length};
ghost use Rattle.head.specs.Head.{all_below, none_twice};
ghost use Rattle.journal_law.specs.Cache.{place_of, begun_place, different};
ghost use Rattle.batch.specs.Rows.{entries, begun_list, write_list};

use batch::rows::Batch;
use group::under_way::UnderWay;

// A recovered volume that takes the calls of the cache.
#[derive(Drop)]
pub struct Live<D> {
    pub(crate) disk: D,
    // the home blocks lie below this place, the head at it
    pub(crate) home: usize,
    pub(crate) counter: u32,
    pub(crate) opens: Batch,
    pub(crate) collected: Batch,
    // the sealed group while it is under way
    pub(crate) group: Option<UnderWay>,
    // the last number
    pub(crate) last: u32,
    ghost room: { home ≤ 4087 },
    ghost marks: { counter + length (entries opens) ≤ 1000000 },
    ghost inside: { all_below home (map begun_place (begun_list opens)) ≡ true },
    ghost apart: { none_twice (map begun_place (begun_list opens)) ≡ true },
    ghost below: { all_below home (map place_of (write_list collected)) ≡ true },
    ghost once: { none_twice (map place_of (write_list collected)) ≡ true },
    ghost places: { different home (map place_of (write_list collected) ++ map begun_place (begun_list opens)) ≤ 8 },
}
