//! Laws of records.
ghost use Rattle.std.specs.Prelude.{◌≡◌, List};
ghost use Rattle.std.specs.Ordering.{nat_cmp};
ghost use Rattle.edi_line.specs.Refusal.{IsUnbroken};
ghost use Rattle.edi_line.specs.ZoneData.{ZoneData};
ghost use Rattle.edi_record.specs.RecordRules.{BreaksRecordRule};
ghost use Rattle.edi_record.specs.Records.{SheetData, StatesSheet};
ghost use Rattle.edi_record.specs.Shapes.{kind_rank};
ghost use Rattle.edi_record.specs.declared.record.Kind.{Kind};
ghost use Rattle.edi_record.specs.contracts.record.KindOrd.TheImpl.{ghosts as kinds};

/// Types go as they are declared: nodes, arcs, faces, objects, links.
pub fn types_go_by_rank()
    ensures { (a b : Kind) → kinds.cmp a b ≡ nat_cmp (kind_rank a) (kind_rank b) }
{}

/// Zones that break no rule of records state a sheet.
pub fn sheets_are_there()
    ensures { (zones : List ZoneData) → IsUnbroken (BreaksRecordRule zones)
        → (sheet : SheetData) × StatesSheet zones sheet }
{}
