//! The zones of a file, handed on one by one, record by record.

ghost use Rattle.std.specs.Prelude.{◌≡◌, ◌≤◌, ◌+◌, ◌^◌, ◌<◌, ◌++◌, ◌∷◌, [], true, false, ℕ, List, OnOk, IfOk, IfErr, length};
ghost use Rattle.edi_line.specs.ZoneData.{ZoneData, entry, entries};
ghost use Rattle.edi_line.specs.FileBytes.{file_bytes};
ghost use Rattle.edi_line.specs.Groups.{IsHandedOut, IsOneRecord};
ghost use Rattle.edi_line.specs.LineRules.{BreaksIn, BreaksLineRule};
ghost use Rattle.edi_line.specs.Refusal.{IsUnbroken, IsLeastBroken, IsLineRefusal, IfBroken};
ghost use Rattle.edi_line.specs.Spelling.{Reading};
ghost use Rattle.edi_line.specs.Zones.{begins_group, ends_group};
ghost use Rattle.edi_line.specs.inner.Groups.{HandedZones, IsStateOf, KeepsHanded, with_begin, with_end, with_inner, with_zone, with_zones, handed_at_first, first_set};
ghost use Rattle.edi_line.specs.inner.HandingOn.{IsAtLines, IsHandedOutBehind, WentOn};
ghost use Rattle.edi_line.specs.inner.Zones.{readings_of};

use crate::codes::CSE;
use crate::fault::LineFault;
use crate::file::{FileBytes, Pieces};
use crate::lines;
use crate::reading::Reader;
use crate::text::Text;
use crate::zone::Zone;
use std::alloc::{AllocError, Global};

/// What takes the zones of a file's records, one after the other. None of them has to stay in memory.
pub trait GroupOut {
    /// Whether it is as these records make it, which it has taken whole, and these zones of the next.
    ghost Holds: { Self → List (List ZoneData) → List ZoneData → Type 0 };

    /// The next record begins, with its RTY.
    fn begin(&mut self, alloc: Global, head: &Zone<'_>) -> Result<(), AllocError>
        requires { begins_group (entry head.now) ≡ true }
        ensures { OnOk result ((groups : List (List ZoneData)) → Holds self.old groups []
            → Holds self.new groups (entry head.now ∷ [])) };

    /// Takes the next zone of the record.
    fn take(&mut self, alloc: Global, zone: &Zone<'_>) -> Result<(), AllocError>
        requires { ends_group (entry zone.now) ≡ false }
        ensures { OnOk result ((groups : List (List ZoneData)) (group : List ZoneData) → IsOneRecord group
            → Holds self.old groups group → Holds self.new groups (group ++ entry zone.now ∷ [])) };

    /// All zones of the record have come.
    fn end(&mut self, alloc: Global) -> Result<(), AllocError>
        ensures { OnOk result ((groups : List (List ZoneData)) (group : List ZoneData) → IsOneRecord group
            → Holds self.old groups group → Holds self.new (groups ++ group ∷ []) []) };
}

/// Where the zones leave off that have been handed on: in front of the first record, inside one, or behind one.
#[derive(Clone, Copy)]
enum Place {
    Front,
    Inside,
    Behind,
}

/// What is stored of the zones that were handed on: where they leave off, and the value of the first CSE in front of
/// the records.
#[derive(Drop)]
struct Handing {
    place: Place,
    charset: Option<Text>,
}

impl Handing {
    /// No zones have been handed on.
    fn new() -> Handing
        ensures { IsStateOf handed_at_first result }
    {
        Handing {
            place: Place::Front,
            charset: None,
        }
    }

    /// Hands the next zone on.
    #[inline(always)]
    fn hand_on<O: GroupOut>(
        &mut self,
        alloc: Global,
        zone: &Zone<'_>,
        out: &mut O,
    ) -> Result<(), AllocError>
        ensures state { OnOk result ((s : HandedZones) → IsStateOf s self.old
            → IsStateOf (with_zone (entry zone.now) s) self.new) }
        ensures keeps { OnOk result ((s : HandedZones) (groups : List (List ZoneData)) → IsStateOf s self.old
            → KeepsHanded (O.Holds out.old) groups s → KeepsHanded (O.Holds out.new) groups (with_zone (entry zone.now) s)) }
    {
        match &zone.code {
            b"RTY" => self.begin(alloc, zone, out),
            b"EOM" => self.end(alloc, out),
            _ => self.go_on(alloc, zone, out),
        }
    }

    /// The zone begins a record.
    fn begin<O: GroupOut>(
        &mut self,
        alloc: Global,
        head: &Zone<'_>,
        out: &mut O,
    ) -> Result<(), AllocError>
        requires { begins_group (entry head.now) ≡ true }
        ensures state { OnOk result ((s : HandedZones) → IsStateOf s self.old
            → IsStateOf (with_begin (entry head.now) s) self.new) }
        ensures keeps { OnOk result ((s : HandedZones) (groups : List (List ZoneData)) → IsStateOf s self.old
            → KeepsHanded (O.Holds out.old) groups s
            → KeepsHanded (O.Holds out.new) groups (with_begin (entry head.now) s)) }
    {
        self.end(alloc, out)?;
        out.begin(alloc, head)?;
        self.place = Place::Inside;
        Ok(())
    }

    /// The record, if the zones leave off in one, is whole.
    fn end<O: GroupOut>(&mut self, alloc: Global, out: &mut O) -> Result<(), AllocError>
        ensures state { OnOk result ((s : HandedZones) → IsStateOf s self.old → IsStateOf (with_end s) self.new) }
        ensures keeps { OnOk result ((s : HandedZones) (groups : List (List ZoneData)) → IsStateOf s self.old
            → KeepsHanded (O.Holds out.old) groups s → KeepsHanded (O.Holds out.new) groups (with_end s)) }
    {
        if let Place::Inside = self.place {
            out.end(alloc)?;
        }
        self.place = Place::Behind;
        Ok(())
    }

    /// The zone neither begins a record nor is the end.
    #[inline(always)]
    fn go_on<O: GroupOut>(
        &mut self,
        alloc: Global,
        zone: &Zone<'_>,
        out: &mut O,
    ) -> Result<(), AllocError>
        requires { ends_group (entry zone.now) ≡ false }
        ensures state { OnOk result ((s : HandedZones) → IsStateOf s self.old
            → IsStateOf (with_inner (entry zone.now) s) self.new) }
        ensures keeps { OnOk result ((s : HandedZones) (groups : List (List ZoneData)) → IsStateOf s self.old
            → KeepsHanded (O.Holds out.old) groups s
            → KeepsHanded (O.Holds out.new) groups (with_inner (entry zone.now) s)) }
    {
        match self.place {
            Place::Front => self.note_charset(alloc, zone),
            Place::Inside => out.take(alloc, zone),
            Place::Behind => Ok(()),
        }
    }

    /// Stores the value of a CSE, if it is the first.
    fn note_charset(&mut self, alloc: Global, zone: &Zone<'_>) -> Result<(), AllocError>
        ensures place { OnOk result (self.new.place ≡ self.old.place) }
        ensures charset { OnOk result (self.new.charset ≡ first_set self.old.charset (entry zone.now)) }
    {
        if self.charset.is_none() && zone.code == CSE {
            self.charset = Some(Text::from_slice(alloc, zone.value.as_slice())?);
        }
        Ok(())
    }

    /// Hands these zones on.
    fn hand_all_on<O: GroupOut>(
        &mut self,
        alloc: Global,
        zones: &[Zone<'_>],
        out: &mut O,
    ) -> Result<(), AllocError>
        ensures state { OnOk result ((s : HandedZones) → IsStateOf s self.old
            → IsStateOf (with_zones s (entries zones.now)) self.new) }
        ensures keeps { OnOk result ((s : HandedZones) (groups : List (List ZoneData)) → IsStateOf s self.old
            → KeepsHanded (O.Holds out.old) groups s
            → KeepsHanded (O.Holds out.new) groups (with_zones s (entries zones.now))) }
    {
        for zone in zones {
            self.hand_on(alloc, zone, out)?;
        }
        Ok(())
    }
}

/// Hands the zones of each record of a file on, in the order of the records, and gives the value of the CSE or none.
/// No more than a few zones are in memory at a time.
///
/// Where one of the rules 101 to 110 is broken, the fault names the least line with a broken rule, and the least rule
/// that is broken there (docs/FORMAT.md, "Rules of lines"). Zones in front of that line may have been handed on.
pub fn read_groups<O: GroupOut>(
    alloc: Global,
    bytes: &[u8],
    out: &mut O,
) -> Result<Option<Text>, LineFault>
    ensures groups { IfOk result (λ charset. IsHandedOut bytes.now charset (O.Holds out.old) (O.Holds out.new)) }
    ensures sound { OnOk result (IsUnbroken (BreaksLineRule bytes.now)) }
    ensures least { IfErr result (IsLineRefusal (BreaksLineRule bytes.now)) }
{
    read_last(alloc, Reader::new(alloc), Handing::new(), bytes, out)
}

/// What `read_groups` does with a file that is freed: at once when all its lines are read, or piece by piece.
pub fn read_groups_from<O: GroupOut>(
    alloc: Global,
    file: FileBytes<'_>,
    out: &mut O,
) -> Result<Option<Text>, LineFault>
    ensures groups { IfOk result (λ charset.
        IsHandedOut (file_bytes file.entry) charset (O.Holds out.old) (O.Holds out.new)) }
    ensures sound { OnOk result (IsUnbroken (BreaksLineRule (file_bytes file.entry))) }
    ensures least { IfErr result (IsLineRefusal (BreaksLineRule (file_bytes file.entry))) }
{
    match file {
        FileBytes::Whole(bytes) => read_groups(alloc, bytes.as_slice(), out),
        FileBytes::InPieces(pieces) => read_groups_of_pieces(alloc, pieces, out),
    }
}

/// Reads a file in pieces, of which each is freed when its lines are read.
fn read_groups_of_pieces<O: GroupOut>(
    alloc: Global,
    pieces: Pieces,
    out: &mut O,
) -> Result<Option<Text>, LineFault>
    ensures groups { IfOk result (λ charset. IsHandedOut pieces charset (O.Holds out.old) (O.Holds out.new)) }
    ensures sound { OnOk result (IsUnbroken (BreaksLineRule pieces)) }
    ensures least { IfErr result (IsLineRefusal (BreaksLineRule pieces)) }
{
    let (ended, last) = pieces.into_parts();
    let mut reader = Reader::new(alloc);
    let mut handing = Handing::new();
    for piece in ended {
        reader = read_piece(alloc, reader, &mut handing, &piece, out)?;
    }
    read_last(alloc, reader, handing, &last, out)
}

/// Reads the lines of a piece, from which the reader then borrows nothing.
fn read_piece<O: GroupOut>(
    alloc: Global,
    reader: Reader<'static>,
    handing: &mut Handing,
    piece: &[u8],
    out: &mut O,
) -> Result<Reader<'static>, LineFault>
    requires { (lines : List Reading) × (left : List Reading) × (given : List ZoneData)
        × IsAtLines lines (readings_of piece.now ++ left) given reader handing.old × (length lines + 1 < 2 ^ 64) }
    ensures ok { IfOk result (λ reader_now. (lines left : List Reading) (given : List ZoneData)
        → IsAtLines lines (readings_of piece.now ++ left) given reader.entry handing.old
        → WentOn lines left given reader_now handing.new (O.Holds out.old) (O.Holds out.new)) }
    ensures broken { IfErr result (IfBroken (λ rule at. (lines left : List Reading) (given : List ZoneData)
        → IsAtLines lines (readings_of piece.now ++ left) given reader.entry handing.old
        → IsLeastBroken (BreaksIn lines) rule at)) }
{
    let mut reader = read_lines(alloc, reader, handing, piece, out)?;
    hand_done_on(alloc, &mut reader, handing, out)?;
    Ok(reader.into_owned(alloc)?)
}

/// Reads the last lines of a file, and hands on what is left then.
fn read_last<O: GroupOut>(
    alloc: Global,
    reader: Reader<'static>,
    handing: Handing,
    bytes: &[u8],
    out: &mut O,
) -> Result<Option<Text>, LineFault>
    requires { (lines : List Reading) × (given : List ZoneData)
        × IsAtLines lines (readings_of bytes.now) given reader handing × (length lines + 1 < 2 ^ 64) }
    ensures groups { IfOk result (λ charset. (file : List ℕ) (given : List ZoneData)
        → IsAtLines (readings_of file) (readings_of bytes.now) given reader.entry handing
        → IsHandedOutBehind given file charset (O.Holds out.old) (O.Holds out.new)) }
    ensures sound { OnOk result ((file : List ℕ) (given : List ZoneData)
        → IsAtLines (readings_of file) (readings_of bytes.now) given reader.entry handing
        → IsUnbroken (BreaksLineRule file)) }
    ensures least { IfErr result (IfBroken (λ rule at. (file : List ℕ) (given : List ZoneData)
        → IsAtLines (readings_of file) (readings_of bytes.now) given reader.entry handing
        → IsLeastBroken (BreaksLineRule file) rule at)) }
{
    let mut handing = handing;
    let reader = read_lines(alloc, reader, &mut handing, bytes, out)?;
    let zones = reader.finish()?;
    handing.hand_all_on(alloc, &zones, out)?;
    handing.end(alloc, out)?;
    Ok(handing.charset)
}

/// Reads lines, and hands zones on that are done, some at a time.
fn read_lines<'a, O: GroupOut>(
    alloc: Global,
    reader: Reader<'a>,
    handing: &mut Handing,
    bytes: &'a [u8],
    out: &mut O,
) -> Result<Reader<'a>, LineFault>
    requires { (lines : List Reading) × (left : List Reading) × (given : List ZoneData)
        × IsAtLines lines (readings_of bytes.now ++ left) given reader handing.old × (length lines + 1 < 2 ^ 64) }
    ensures ok { IfOk result (λ reader_now. (lines left : List Reading) (given : List ZoneData)
        → IsAtLines lines (readings_of bytes.now ++ left) given reader.entry handing.old
        → WentOn lines left given reader_now handing.new (O.Holds out.old) (O.Holds out.new)) }
    ensures broken { IfErr result (IfBroken (λ rule at. (lines left : List Reading) (given : List ZoneData)
        → IsAtLines lines (readings_of bytes.now ++ left) given reader.entry handing.old
        → IsLeastBroken (BreaksIn lines) rule at)) }
{
    let mut reader = reader;
    let mut rest = bytes;
    while !rest.is_empty() {
        let (line, after) = lines::first_line(rest);
        reader.take_line(alloc, lines::content(line))?;
        if reader.has_many() {
            hand_done_on(alloc, &mut reader, handing, out)?;
        }
        rest = after;
    }
    Ok(reader)
}

/// Hands the zones on that are done, and lets them go.
fn hand_done_on<O: GroupOut>(
    alloc: Global,
    reader: &mut Reader<'_>,
    handing: &mut Handing,
    out: &mut O,
) -> Result<(), AllocError>
    ensures line { OnOk result (reader.new.line ≡ reader.old.line) }
    ensures records { OnOk result (reader.new.order ≡ reader.old.order) }
    ensures went { OnOk result ((lines left : List Reading) (given : List ZoneData)
        → IsAtLines lines left given reader.old handing.old
        → WentOn lines left given reader.new handing.new (O.Holds out.old) (O.Holds out.new)) }
{
    handing.hand_all_on(alloc, reader.done(), out)?;
    reader.let_go();
    Ok(())
}
