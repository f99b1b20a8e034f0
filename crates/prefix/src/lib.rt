// The first elements of an array beside which a count stands, as a slice: the core has no heap, so its lists are arrays with counts.
#![tactic(auto)]

ghost use Rattle.std.specs.Prelude.{◌≡◌, take};

// The first n elements; all, where there are fewer.
pub fn first<T>(xs: &[T], n: usize) -> &[T]
    ensures { result.now ≡ take n xs.now }
{
    if n < xs.len() { &xs[..n] } else { xs }
}
