//! The lines of a pairing, as they are read.

ghost use Rattle.std.specs.Prelude.{◌≡◌, ◌≢◌, ℕ, List, ◌∷◌, ◌++◌, Bool, MatchOption, true};
ghost use Rattle.edi_pairing.specs.Names.{is_mark};
ghost use Rattle.edi_pairing.specs.PairingText.{front_of, line_end};
ghost use Rattle.edi_pairing.specs.inner.Reading.{BeginsWith, IsCutAtMark};

use crate::names::RecordName;
use crate::places::PlacesByName;
use memchr::memchr2;

/// Where a record goes, whether it is turned, and what comes behind its line.
#[derive(Drop)]
pub(crate) struct Line<'f> {
    pub(crate) to: u32,
    pub(crate) turned: bool,
    pub(crate) behind: &'f [u8],
}

/// What comes behind a front, if the text begins with it.
pub(crate) fn behind<'f>(text: &'f [u8], front: &[u8]) -> Option<&'f [u8]>
    ensures { MatchOption result ((rest : List ℕ) → text.now ≢ front.now ++ rest) (λ r. text.now ≡ front.now ++ r.now) }
{
    text.strip_prefix(front)
}

/// What comes behind the type and the identifier of a record and their semicolons.
fn behind_name<'f>(text: &'f [u8], name: &RecordName) -> Option<&'f [u8]>
    ensures { MatchOption result ((rest : List ℕ)
        → text.now ≢ front_of name.now ++ rest) (λ r. text.now ≡ front_of name.now ++ r.now) }
{
    let text = behind(text, name.kind.code())?;
    let text = behind(text, b";")?;
    let text = behind(text, name.rid.as_slice())?;
    behind(text, b";")
}

/// What stands before the first semicolon or line feed, and what begins with that.
pub(crate) fn cut_at_mark(text: &[u8]) -> Option<(&[u8], &[u8])>
    ensures { MatchOption result ((front : List ℕ) (c : ℕ) (rest : List ℕ) → is_mark c ≡ true
        → text.now ≢ front ++ c ∷ rest)
        (λ cut. IsCutAtMark text.now cut.0.now cut.1.now) }
{
    match memchr2(b';', b'\n', text) {
        Some(at) => Some(text.split_at(at)),
        None => None,
    }
}

/// Whether the record is turned, and what comes behind the end of its line.
pub(crate) fn behind_end(text: &[u8]) -> Option<(bool, &[u8])>
    ensures { MatchOption result ((turned : Bool) (rest : List ℕ) → text.now ≢ line_end turned ++ rest)
        (λ r. text.now ≡ line_end r.0 ++ r.1.now) }
{
    match behind(text, b"\n") {
        Some(rest) => Some((false, rest)),
        None => {
            let rest = behind(text, b";reversed\n")?;
            Some((true, rest))
        }
    }
}

/// The line of a record, if the text begins with one.
pub(crate) fn read_line<'f>(
    places: &PlacesByName<'_>,
    name: &RecordName,
    text: &'f [u8],
) -> Option<Line<'f>>
    ensures { MatchOption result
        ((to : ℕ) (turned : Bool) (rest : List ℕ) → ¬ (BeginsWith places.now name.now text.now to turned rest))
        (λ line. BeginsWith places.now name.now text.now line.to line.turned line.behind.now) }
{
    let Some(rest) = behind_name(text, name) else {
        return None;
    };
    let Some((other, end)) = cut_at_mark(rest) else {
        return None;
    };
    let Some(to) = places.find(name.kind, other) else {
        return None;
    };
    match behind_end(end) {
        Some((turned, behind)) => Some(Line { to, turned, behind }),
        None => None,
    }
}
