//! Laws of the texts of schemas.

ghost use Rattle.edi_schema_text.specs.Laws.{OneDigestOneMeaning, OneMeaningOneDigest, OneStatementOneText, TextsTellSchemas};

/// Two schemas have one text exactly if they mean the same.
pub fn texts_tell_schemas()
    ensures { TextsTellSchemas }
{}

/// Files that state the same classes have schemas with one text, whatever the order of their records, their lots and
/// remarks.
pub fn one_statement_one_text()
    ensures { OneStatementOneText }
{}

/// Two schemas that mean the same have one digest, and two with one digest mean the same, unless their texts are two
/// with one SHA-256.
pub fn digests_tell_schemas()
    ensures one { OneMeaningOneDigest }
    ensures back { OneDigestOneMeaning }
{}
