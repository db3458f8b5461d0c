// Fronts of lists.
ghost use Rattle.std.specs.Prelude.{◌≡◌, take};

/// The first `n` of a list, or all where it has no more.
pub fn front<T>(list: &[T], n: usize) -> &[T]
    ensures { result.now ≡ take n list.now }
{
    &list[..n.min(list.len())]
}
