//! The texts of two files of classes, written by hand, and their SHA-256, by sha256sum.

use crate::{schema_digest, schema_text};
use edi_schema::{Kinds, Schema};
use std::test::Fail;

const CLASSES: &[u8] = b"BOMT 12:EDAB01SE.SCD\n\
RTYSA03:OBJ\nRIDSA11:PARCELLE_id\n\
RTYSA03:ATT\nRIDSA06:SUP_id\nDIPCP22:EDAB01;SeDIC;DIA;SUP_n\n\
RTYSA03:ATT\nRIDSA06:NOM_id\nDIPCP22:EDAB01;SeDIC;DIA;NOM_n\n\
RTYSA03:REL\nRIDSA06:INI_id\nKNDSA03:IND\n\
RTYSA03:REL\nRIDSA06:FIN_id\nKNDSA03:FND\n\
RTYSA03:REL\nRIDSA06:GCH_id\nKNDSA03:LPO\n\
RTYSA03:REL\nRIDSA06:DRT_id\nKNDSA03:RPO\n\
EOMT 00:\n";

const WORDS: &[u8] = b"BOMT 12:EDAB01DI.DIC\n\
RTYSA03:DIA\nRIDSA05:SUP_n\nTYPSA01:R\n\
RTYSA03:DIA\nRIDSA05:NOM_n\nTYPSA01:A\n\
EOMT 00:\n";

// The same classes in another order, of another lot, with remarks, with a word for the object, and with a class that no
// pointer can name.
const OTHER_CLASSES: &[u8] = b"BOMT 12:EDZZ99SE.SCD\n\
REMT 05:other\n\
RTYSA03:REL\nRIDSA06:DRT_id\nKNDSA03:RPO\n\
RTYSA03:REL\nRIDSA06:GCH_id\nKNDSA03:LPO\n\
RTYSA03:REL\nRIDSA06:FIN_id\nKNDSA03:FND\n\
REMT 04:more\n\
RTYSA03:REL\nRIDSA06:INI_id\nKNDSA03:IND\n\
RTYSA03:ATT\nRIDSA06:NOM_id\nDIPCP22:EDZZ99;SeDIC;DIA;NOM_n\n\
RTYSA04:ATT;\nRIDSA06:NOM_id\nDIPCP22:EDZZ99;SeDIC;DIA;SUP_n\n\
RTYSA03:ATT\nRIDSA06:SUP_id\nDIPCP22:EDZZ99;SeDIC;DIA;SUP_n\n\
RTYSA03:OBJ\nRIDSA11:PARCELLE_id\nDIPCP22:EDZZ99;SeDIC;DIA;SUP_n\n\
EOMT 00:\n";

const OTHER_WORDS: &[u8] = b"BOMT 12:EDZZ99DI.DIC\n\
RTYSA03:DIA\nRIDSA05:NOM_n\nTYPSA01:A\n\
RTYSA03:DIA\nRIDSA05:SUP_n\nTYPSA01:R\n\
EOMT 00:\n";

const TEXT: &[u8] = b"edicad schema 1\n\
ATT;NOM_id;A;bytes;-\n\
ATT;SUP_id;R;number;-\n\
OBJ;PARCELLE_id;-;-;-\n\
REL;DRT_id;-;-;right face\n\
REL;FIN_id;-;-;final node\n\
REL;GCH_id;-;-;left face\n\
REL;INI_id;-;-;initial node\n";

const DIGEST: [u8; 32] = [
    0x38, 0x31, 0xf3, 0x97, 0x45, 0x79, 0xb5, 0x1c, 0x08, 0xc8, 0x7e, 0xb4, 0x8f, 0x72, 0x71, 0xa3,
    0x3f, 0xbb, 0x2b, 0xe6, 0x60, 0x99, 0xa8, 0xfc, 0x6f, 0xae, 0xaf, 0xb3, 0x9e, 0xd7, 0x78, 0x84,
];

#[test]
fn files_that_state_the_same_classes_have_one_text(rt: HostRuntime) -> Result<(), Fail> {
    for (scd, dic) in [(CLASSES, WORDS), (OTHER_CLASSES, OTHER_WORDS)] {
        let schema = Schema::load(rt.alloc(), scd, dic, &Kinds::usual())?;
        let text = schema_text(rt.alloc(), &schema)?;
        assert_eq!(rt; text.as_slice(), TEXT);
        assert_eq!(rt; schema_digest(rt.alloc(), &schema)?, DIGEST);
    }
    Ok(())
}

#[test]
fn other_codes_of_kinds_are_another_text(rt: HostRuntime) -> Result<(), Fail> {
    let kinds = Kinds::new(b"IND", b"FND", b"RPO", b"LPO").ok_or("codes")?;
    let schema = Schema::load(rt.alloc(), CLASSES, WORDS, &kinds)?;
    let text = schema_text(rt.alloc(), &schema)?;
    assert_ne!(rt; text.as_slice(), TEXT);
    Ok(())
}
