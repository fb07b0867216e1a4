//! Whether two short texts are equal.

ghost use Rattle.std.specs.Prelude.{◌≡◌, ◌+◌, ◌≤◌, nat_eq, length, take, drop};
ghost use Rattle.std.specs.Cmp.Lexicographic.{pointwise};

/// So many bytes of a text, from a place on.
#[inline(always)]
fn bytes_at<const N: usize>(text: &[u8], at: usize) -> [u8; N]
    requires { at + N ≤ length text.now }
    ensures { result ≡ take N (drop at text.now) }
{
    let mut bytes = [0; N];
    bytes.copy_from_slice(&text[at..at + N]);
    bytes
}

/// Whether two texts of one length are equal: by so many bytes at the front and as many at the end, which may overlap.
#[inline(always)]
fn same_ends<const N: usize>(first: &[u8], second: &[u8]) -> bool
    requires as_long { length second.now ≡ length first.now }
    requires enough { N ≤ length first.now }
    requires all { length first.now ≤ N + N }
    ensures { result ≡ pointwise nat_eq first.now second.now }
{
    let last = first.len() - N;
    bytes_at::<N>(first, 0) == bytes_at::<N>(second, 0)
        && bytes_at::<N>(first, last) == bytes_at::<N>(second, last)
}

/// Whether two texts are equal. Those of a sheet mostly have up to 32 bytes. Of such texts both ends are compared, in
/// registers, which takes half the instructions that slices of any length take.
pub fn same_bytes(first: &[u8], second: &[u8]) -> bool
    ensures { result ≡ pointwise nat_eq first.now second.now }
{
    let len = first.len();
    if len != second.len() {
        return false;
    }
    match len {
        4..=7 => same_ends::<4>(first, second),
        8..=15 => same_ends::<8>(first, second),
        16..=32 => same_ends::<16>(first, second),
        _ => first == second,
    }
}
