//! Three files one after the other.
ghost use Rattle.std.specs.Prelude.{◌≡◌, ◌≤◌, ◌<◌, ◌∷◌, ◌==◌, length, take, drop, position};
ghost use Rattle.std.specs.List.{concat};
ghost use Rattle.edi_line.specs.inner.Lines.{lines_in};
ghost use Rattle.edi_compare.specs.Bundle.{AreParts, first_file, later_files};

/// The files of a bundle, each empty where the bundle ends before it.
#[derive(Clone, Copy)]
pub struct Bundle<'a> {
    pub scd: &'a [u8],
    pub dic: &'a [u8],
    pub vec: &'a [u8],
}

/// Cuts after the first and the second line that begins with `EOM`.
pub fn bundle_of(bytes: &[u8]) -> Bundle<'_>
    ensures { AreParts bytes.now result.scd.now result.dic.now result.vec.now }
{
    let (scd, rest) = bytes.split_at(file_len(bytes));
    let (dic, vec) = rest.split_at(file_len(rest));
    Bundle { scd, dic, vec }
}

// Where the first file ends.
fn file_len(bytes: &[u8]) -> usize
    ensures within { result ≤ length bytes.now }
    ensures file { take result bytes.now ≡ concat (first_file (lines_in bytes.now)) }
    ensures rest { lines_in (drop result bytes.now) ≡ later_files (lines_in bytes.now) }
{
    let mut at = 0;
    while at < bytes.len() {
        let rest = &bytes[at..];
        let line = &rest[..line_len(rest)];
        at += line.len();
        if line.starts_with(b"EOM") {
            return at;
        }
    }
    at
}

// The length of the first line, with its line feed if it has one.
fn line_len(bytes: &[u8]) -> usize
    requires { 0 < length bytes.now }
    ensures positive { 0 < result }
    ensures within { result ≤ length bytes.now }
    ensures line { lines_in bytes.now ≡ take result bytes.now ∷ lines_in (drop result bytes.now) }
{
    match feed_in(bytes) {
        Some(feed) => feed + 1,
        None => bytes.len(),
    }
}

// Where the first line feed stands.
fn feed_in(bytes: &[u8]) -> Option<usize>
    ensures { result ≡ position (λ c. c == 10) bytes.now }
{
    bytes.iter().position(|c| *c == b'\n')
}
