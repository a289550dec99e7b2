// Parts of slices, cut to what there is.
#![tactic(auto)]

ghost use Rattle.std.specs.Prelude.{◌≡◌, length, take, drop};

// The first `n` items, or all where there are fewer.
pub fn front<T>(items: &[T], n: usize) -> &[T]
    ensures { result.now ≡ take n items.now }
{
    &items[..n.min(items.len())]
}

// The `n` items from an index on, or as many as there are.
pub fn part<T>(items: &[T], at: usize, n: usize) -> &[T]
    ensures { result.now ≡ take n (drop at items.now) }
{
    front(&items[at.min(items.len())..], n)
}

// Copies items over as many others, one by one: `copy_from_slice` calls the C library's memmove, and the archive for C wants no more of that
// library than memset.
pub fn copy<T: Copy>(to: &mut [T], from: &[T])
    requires { length to.old ≡ length from.now }
    ensures { to.new ≡ from.now }
{
    for i in 0..from.len() {
        to[i] = from[i];
    }
}
