//! The codes of the kinds as they are given.
ghost use Rattle.std.specs.Prelude.{◌≡◌, ◌↔◌, IfSome, IsSome};
ghost use Rattle.edi_schema.specs.Roles.{AreKindCodes};
ghost use Rattle.edi_words.specs.Codes.{codes_given};
ghost use Rattle.edi_words.specs.Requests.{usual_kinds};

use edi_schema::{ByRole, Kinds};
use std::marker::Model;

/// The codes of the four kinds of link, which a schema takes and which can be read. Contracts see the codes alone.
#[derive(Drop)]
pub struct GivenKinds<'a> {
    kinds: Kinds<'a>,
    codes: ByRole<&'a [u8]>,
}

impl<'a> Model for GivenKinds<'a> {
    ghost use Rattle.std.specs.Prelude.{◌≡◌};
    ghost use Rattle.edi_schema.specs.Roles.{KindCodes};
    ghost use Rattle.edi_words.specs.Codes.{codes_given};

    ghost Value = { KindCodes };

    ghost view = { λ g. g.kinds };

    ghost invariant = { λ g. codes_given g.codes ≡ g.kinds };
}

impl<'a> GivenKinds<'a> {
    /// IND, FND, LPO and RPO.
    pub fn usual() -> GivenKinds<'static>
        ensures { result ≡ usual_kinds }
    {
        GivenKinds {
            kinds: Kinds::usual(),
            codes: ByRole {
                initial: b"IND",
                final_node: b"FND",
                left: b"LPO",
                right: b"RPO",
            },
        }
    }

    /// The four codes, or none where one is empty or two are equal.
    pub fn new(codes: ByRole<&'a [u8]>) -> Option<GivenKinds<'a>>
        ensures good { IsSome result ↔ AreKindCodes (codes_given codes.entry) }
        ensures codes { IfSome result (λ k. k ≡ codes_given codes.entry) }
    {
        let kinds = Kinds::new(codes.initial, codes.final_node, codes.left, codes.right)?;
        Some(GivenKinds { kinds, codes })
    }

    /// The kinds, as a schema takes them.
    pub fn kinds(&self) -> &Kinds<'a>
        ensures { result.now ≡ self.now }
    {
        &self.kinds
    }

    /// The codes, which can be read.
    pub fn codes(&self) -> &ByRole<&'a [u8]>
        ensures { codes_given result.now ≡ self.now }
    {
        &self.codes
    }
}
