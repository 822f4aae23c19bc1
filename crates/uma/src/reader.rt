ghost use Rattle.std.specs.Prelude.{◌≡◌, true, IfOk, IfErr};
ghost use Rattle.smr_core.specs.declared.holder.Phase.{Phase};
ghost use Rattle.smr_clock.specs.Belongs.{holder, IsPassOf};
ghost use Rattle.uma.specs.Phases.{is_settled};

use crate::refused::Refused;
use smr_clock::{Bare, Clock, Pass};
use smr_core::Phase;

/// A section of a reader. Its drop leaves it, at every way out of the scope.
pub struct Section<'l, 'a> {
    pub(crate) reader: &'l mut Reader<'a>,
}

impl Drop for Section<'_, '_> {
    fn drop(self)
        ensures left { (holder self.exit.0.now.pass).phase ≡ Phase.Outside }
    {
        let Section { reader } = self;
        reader.leave();
    }
}

/// Who reads a pool, and allocates nothing by this. It may be sent to another thread, and is used by one at a time.
#[derive(Drop)]
pub struct Reader<'a> {
    pub(crate) clock: &'a Clock<Bare>,
    pub(crate) pass: Pass<Bare>,
    pub ghost here: { IsPassOf clock.now pass },
    // A section whose guard was forgotten is left before the next.
    pub ghost settled: { is_settled (holder pass).phase ≡ true },
}

impl<'a> Reader<'a> {
    ghost use Rattle.uma.specs.Section.{IsOpen};

    /// Enters a section, which ends when the guard is dropped. No item that is freed meanwhile becomes usable before
    /// that. An open section delays the reuse of freed items, so it should be short.
    ///
    /// # Errors
    ///
    /// `Late`: the pool's clock advanced by its whole window of 1,024 while the section was entered. Read again.
    pub fn read(&mut self) -> Result<Section<'_, 'a>, Refused>
        ensures open { IfOk result IsOpen }
        ensures refused { IfErr result (λ why. why ≡ Refused.Late) }
    {
        self.leave();
        if self.clock.enter(&mut self.pass).is_err() {
            return Err(Refused::Late);
        }
        Ok(Section { reader: self })
    }

    // Leaves the section, if it is in one.
    pub(crate) fn leave(&mut self)
        ensures out { (holder self.new.pass).phase ≡ Phase.Outside }
    {
        if self.pass.phase() == Phase::Inside {
            self.clock.exit(&mut self.pass);
        }
    }
}
