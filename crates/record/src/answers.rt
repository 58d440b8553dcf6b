// Questions about a closure.
ghost use Rattle.std.specs.Prelude.{◌≡◌, map};
ghost use Rattle.cover.specs.Views.{captured};
ghost use Rattle.closures.specs.Requests.{waits_of};
ghost use Rattle.closures.specs.Views.{count_of};
ghost use Rattle.record.specs.Steps.{by_record, answered, kept_of};
ghost use Rattle.record.specs.Views.{view};

use crate::faults::RecordFault;
use crate::records::Record;
use place::uses::Capture;
use scale::modes::{Kind, Mode};
use scale::sited::Sited;

impl<'a, 't, W> Record<'a, 't, W> {
    // The captures of an analysed closure, a part of the capture table.
    pub fn captures(&self, c: u16) -> Result<&[Capture<Mode>], RecordFault>
        ensures { answered (λ s. map captured s.now) result ≡ answered (λ k. k.captures) (kept_of (count_of self.now.closures) (view self.now) c) }
    {
        let found = self.closures.analysis(c)?;
        let from = found.from;
        let end = from + found.count;
        Ok(&self.table.rows[from..end])
    }

    // The kind of an analysed closure, with its site.
    pub fn kind(&self, c: u16) -> Result<Sited<Kind>, RecordFault>
        ensures { result ≡ answered (λ k. k.kind) (kept_of (count_of self.now.closures) (view self.now) c) }
    {
        let found = self.closures.analysis(c)?;
        Ok(found.kind)
    }

    // How many distinct closures a closure waits on.
    pub fn waits(&self, c: u16) -> Result<u32, RecordFault>
        ensures { result ≡ by_record (waits_of (count_of self.now.closures) (view self.now) c) }
    {
        Ok(self.closures.waits(c)?)
    }
}
