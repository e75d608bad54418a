// The points of a period, by their places.
ghost use Rattle.std.specs.Prelude.{◌≡◌, [], ◌∷◌, ◌++◌};
ghost use Rattle.std.specs.List.{slice_get};

use power::sample::Sample;

// The point at a place: the first, those inside, the last.
pub(crate) fn point_among(
    first: Sample,
    inside: &[Sample],
    last: Sample,
    place: usize,
) -> Option<Sample>
    ensures { result ≡ slice_get (first ∷ (inside.now ++ last ∷ [])) place }
{
    match place.checked_sub(1) {
        None => Some(first),
        Some(i) if i == inside.len() => Some(last),
        Some(i) => inside.get(i).copied(),
    }
}
