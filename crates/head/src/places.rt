// What the places of a head must be.
ghost use Rattle.std.specs.Prelude.{◌≡◌};
ghost use Rattle.head.specs.Head.{all_below, none_twice};

pub(crate) fn are_below(places: &[usize], home: usize) -> bool
    ensures { result ≡ all_below home places.now }
{
    places.iter().all(|place| *place < home)
}

pub(crate) fn are_different(places: &[usize]) -> bool
    ensures { result ≡ none_twice places.now }
{
    // Each against those behind it: no iterator gives the rest.
    let mut rest = places;
    while let [first, others @ ..] = rest {
        if others.contains(first) {
            return false;
        }
        rest = others;
    }
    true
}
