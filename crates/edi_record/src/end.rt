//! An end of a link.

ghost use Rattle.std.specs.Prelude.{◌≡◌, Some};

use crate::identifier::Identifier;
use crate::shared_parts::PointerStart;
use edi_line::Text;
use std::marker::Model;
use std::sync::Arc;

/// An end of a link. It shares the start of its pointer with the other ends that have the same: a sheet has more ends
/// than records. Contracts see the texts alone.
pub struct End {
    pub(crate) start: Arc<PointerStart>,
    pub(crate) rid: Identifier,
    pub(crate) sns: Option<Text>,
}

impl Drop for End {
    // Where a block's ends are freed a call for each would take a third of the instructions.
    #[inline(always)]
    fn drop(self) {
        let End {
            start: _,
            rid: _,
            sns: _,
        } = self;
    }
}

impl Model for End {
    ghost use Rattle.edi_record.specs.LinkEnds.{EndData};

    ghost Value = { EndData };

    ghost view = { λ e. record {
      lot = e.start.value.lot;
      subset = e.start.value.subset;
      target = record { rty = e.start.value.rty; rid = e.rid };
      sns = e.sns;
    } };
}

impl End {
    /// The lot of the record that it names.
    pub fn lot(&self) -> &[u8]
        ensures { result.now ≡ self.now.lot }
    {
        self.start.lot()
    }

    /// The subset of the record that it names.
    pub fn subset(&self) -> &[u8]
        ensures { result.now ≡ self.now.subset }
    {
        self.start.subset()
    }

    /// The type of the record that it names.
    pub fn rty(&self) -> &[u8]
        ensures { result.now ≡ self.now.target.rty }
    {
        self.start.rty()
    }

    /// The identifier of the record that it names.
    pub fn rid(&self) -> &Identifier
        ensures { result.now ≡ self.now.target.rid }
    {
        &self.rid
    }

    /// Its SNS, if it has one.
    pub fn sns(&self) -> &Option<Text>
        ensures { result.now ≡ self.now.sns }
    {
        &self.sns
    }

    /// Gives it an SNS.
    pub(crate) fn put_sns(&mut self, sns: Text)
        ensures { self.new ≡ record self.old { sns = Some sns } }
    {
        self.sns = Some(sns);
    }
}
