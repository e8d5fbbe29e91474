// In how many bytes two texts agree.
ghost use Rattle.std.specs.Prelude.{◌≡◌, ◌≤◌, length, reverse};
ghost use Rattle.sk_undo.specs.Changes.{agreed};

/// From their start.
pub(crate) fn front_of(a: &[u8], b: &[u8]) -> usize
    ensures value { result ≡ agreed a.now b.now }
    ensures fits { (result ≤ length a.now) × (result ≤ length b.now) }
{
    let mut n = 0;
    while n < a.len() && n < b.len() && a[n] == b[n] {
        n += 1;
    }
    n
}

/// From their end.
pub(crate) fn back_of(a: &[u8], b: &[u8]) -> usize
    ensures value { result ≡ agreed (reverse a.now) (reverse b.now) }
    ensures fits { (result ≤ length a.now) × (result ≤ length b.now) }
{
    let mut n = 0;
    while n < a.len() && n < b.len() && a[a.len() - 1 - n] == b[b.len() - 1 - n] {
        n += 1;
    }
    n
}
