//! The heads of the zones of the canonical file (docs/FORMAT.md, "The canonical file").

ghost use Rattle.std.specs.Prelude.{◌≡◌, codes};

/// What stands before the length of a value.
#[derive(Clone, Copy)]
pub(crate) struct ZoneHead {
    pub(crate) code: [u8; 3],
    pub(crate) nature: u8,
    pub(crate) format: u8,
}

/// The first zone of the file.
pub(crate) const BEGIN: ZoneHead = ZoneHead {
    code: *b"BOM",
    nature: b'T',
    format: b' ',
};

/// The character set of the file.
pub(crate) const CHARACTER_SET: ZoneHead = ZoneHead {
    code: *b"CSE",
    nature: b'T',
    format: b' ',
};

/// The last zone of the file.
pub(crate) const END: ZoneHead = ZoneHead {
    code: *b"EOM",
    nature: b'T',
    format: b' ',
};

/// The rest of a value that is too long for one line.
pub(crate) const NEXT: ZoneHead = ZoneHead {
    code: *b"NEX",
    nature: b'T',
    format: b' ',
};

/// The identifier of a record.
pub(crate) const IDENTIFIER: ZoneHead = ZoneHead {
    code: *b"RID",
    nature: b'S',
    format: b'A',
};

/// The class of a record.
pub(crate) const CLASS: ZoneHead = ZoneHead {
    code: *b"SCP",
    nature: b'C',
    format: b'P',
};

/// How many points an arc has.
pub(crate) const POINT_COUNT: ZoneHead = ZoneHead {
    code: *b"PTC",
    nature: b'S',
    format: b'N',
};

/// A point.
pub(crate) const COORDINATES: ZoneHead = ZoneHead {
    code: *b"COR",
    nature: b'C',
    format: b'C',
};

/// How many ends a link has.
pub(crate) const END_COUNT: ZoneHead = ZoneHead {
    code: *b"FTC",
    nature: b'S',
    format: b'N',
};

/// What an end of a link names.
pub(crate) const END_TARGET: ZoneHead = ZoneHead {
    code: *b"FTP",
    nature: b'C',
    format: b'P',
};

/// The sense of an end.
pub(crate) const SENSE: ZoneHead = ZoneHead {
    code: *b"SNS",
    nature: b'S',
    format: b'A',
};

/// How many attributes a record has.
pub(crate) const ATTRIBUTE_COUNT: ZoneHead = ZoneHead {
    code: *b"ATC",
    nature: b'S',
    format: b'N',
};

/// The class of an attribute.
pub(crate) const ATTRIBUTE: ZoneHead = ZoneHead {
    code: *b"ATP",
    nature: b'C',
    format: b'P',
};

/// The character set of an attribute's value.
pub(crate) const VALUE_CHARACTER_SET: ZoneHead = ZoneHead {
    code: *b"TEX",
    nature: b'T',
    format: b' ',
};

/// The head of an attribute's value, whose format is the letter of its class.
pub(crate) fn value_head(letter: u8) -> ZoneHead
    ensures { result ≡ record { code = codes "ATV"; nature = 83; format = letter } }
{
    ZoneHead {
        code: *b"ATV",
        nature: b'S',
        format: letter,
    }
}
