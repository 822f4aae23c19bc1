ghost use Rattle.smr_core.specs.declared.holder.Phase.{Phase};
ghost use Rattle.smr_clock.specs.Belongs.{clock_id, view, holder};
ghost use Rattle.smr_clock.specs.Calls.{FindsWrite, IsInPhase, IsInOrLate, Becomes, LoadsEnter, ChecksEnter, TakesEnter, BecomesVacancy};
ghost use Rattle.smr_clock.specs.Steps.{enter_storing, enter_checking, clearing, leaving, coming};
ghost use Rattle.smr_clock.specs.Vacancies.{IsVacancyOf, vacancy_knows};

use crate::clock::Clock;
use crate::host::Host;
use crate::pass::{Pass, Vacancy};
use crate::polls::Overtaken;
use crate::view::{Clears, Comes, EnterChecks, EnterLoads, EnterStores, Leaves};
use smr_core::Phase;
use smr_core::hands::{WRITE_PLACE, all_but, is_overtaken, presence_place, seat_bit, seat_place};
use smr_seq::Seq;

/// Sections: a pass enters one in three steps, and leaves it.
impl<H: Host> Clock<H> {
    /// Takes the first step of an enter: loads the write sequence. The pass must be outside.
    pub fn enter_load(&self, pass: &mut Pass<H>)
        requires { IsInPhase self.now Phase.Outside pass.old }
        ensures { LoadsEnter self.now pass.old pass.new }
    {
        pass.loaded = self
            .table
            .shared
            .load::<EnterLoads>(&mut pass.seat, WRITE_PLACE);
        pass.phase = Phase::Loaded;
    }

    /// Takes the second step: stores the low half of the loaded hand in the seat's word.
    pub fn enter_store(&self, pass: &mut Pass<H>)
        requires { IsInPhase self.now Phase.Loaded pass.old }
        ensures { Becomes self.now (enter_storing (view pass.old)) pass.new }
    {
        let word = u64::from(Seq::low(pass.loaded).raw);
        let place = seat_place(pass.number);
        self.table
            .shared
            .store::<EnterStores>(&mut pass.seat, place, word);
        pass.phase = Phase::Stored;
    }

    /// Takes the third step, which is the entry: loads the write sequence again.
    ///
    /// # Errors
    ///
    /// `Overtaken { loaded, found }`: the write sequence advanced by the window or more between the two loads. The pass is
    /// outside again.
    pub fn enter_check(&self, pass: &mut Pass<H>) -> Result<(), Overtaken>
        requires { IsInPhase self.now Phase.Stored pass.old }
        ensures { ChecksEnter self.now pass.old result pass.new }
    {
        let loaded = pass.loaded;
        // The mark is loaded after the word is stored: a poll that finds no word here loaded a write sequence that is at most this mark.
        // If the hand has moved by the window since the first load, a poll could misread the word, so the enter is late.
        let found = self.load_mark(pass);
        if pass.phase == Phase::Late {
            self.clear(pass);
            return Err(Overtaken { loaded, found });
        }
        Ok(())
    }

    /// Enters a section, by the three steps [`Clock::enter_load`], [`Clock::enter_store`] and [`Clock::enter_check`].
    /// The pass must be outside. The caller may read what it finds from then until [`Clock::exit`].
    ///
    /// # Errors
    ///
    /// `Overtaken { loaded, found }`: the write sequence advanced by the window or more between the two loads. The pass is
    /// outside again.
    pub fn enter(&self, pass: &mut Pass<H>) -> Result<(), Overtaken>
        requires { IsInPhase self.now Phase.Outside pass.old }
        ensures { TakesEnter self.now pass.old result pass.new }
    {
        self.enter_load(pass);
        self.enter_store(pass);
        self.enter_check(pass)
    }

    /// Leaves the section. The pass must be inside. The seat's word is 0 afterwards.
    pub fn exit(&self, pass: &mut Pass<H>)
        requires { IsInPhase self.now Phase.Inside pass.old }
        ensures { Becomes self.now (clearing (view pass.old)) pass.new }
    {
        self.clear(pass);
    }

    fn load_mark(&self, pass: &mut Pass<H>) -> u64
        requires { IsInPhase self.now Phase.Stored pass.old }
        ensures { FindsWrite (clock_id self.now) (holder pass.old) result (enter_checking (view pass.old) result) pass.new.seat }
    {
        let found = self
            .table
            .shared
            .load::<EnterChecks>(&mut pass.seat, WRITE_PLACE);
        pass.phase = if is_overtaken(self.setup.config, pass.loaded, found) {
            Phase::Late
        } else {
            Phase::Inside
        };
        found
    }

    fn clear(&self, pass: &mut Pass<H>)
        requires { IsInOrLate self.now pass.old }
        ensures { Becomes self.now (clearing (view pass.old)) pass.new }
    {
        let place = seat_place(pass.number);
        self.table.shared.store::<Clears>(&mut pass.seat, place, 0);
        pass.phase = Phase::Outside;
    }
}

/// Seats come and go: the presence word has a bit for each seat that has a worker. Neither call waits,
/// takes memory or refuses.
impl<H: Host> Clock<H> {
    /// Makes the worker leave its seat, by one step, which clears the seat's bit in the presence word. The pass must be
    /// outside. No poll that loads the presence word afterwards loads the seat's word, until the vacancy comes back.
    pub fn leave(&self, pass: Pass<H>) -> Vacancy<H>
        requires { IsInPhase self.now Phase.Outside pass }
        ensures { BecomesVacancy self.now (leaving (view pass)) result }
    {
        let Pass {
            mut seat,
            number,
            phase: _,
            loaded,
        } = pass;
        let place = presence_place(self.setup.config);
        self.table
            .shared
            .fetch_and::<Leaves>(&mut seat, place, all_but(number));
        Vacancy {
            seat,
            number,
            loaded,
        }
    }

    /// Makes the vacancy the worker of its seat again, by one step, which sets the seat's bit. The pass is outside, and
    /// has seen what the worker that left had seen. Any thread may make this call.
    pub fn come(&self, vacancy: Vacancy<H>) -> Pass<H>
        requires here { IsVacancyOf self.now vacancy }
        ensures { Becomes self.now (coming (vacancy_knows vacancy)) result }
    {
        let Vacancy {
            mut seat,
            number,
            loaded,
        } = vacancy;
        let place = presence_place(self.setup.config);
        self.table
            .shared
            .fetch_or::<Comes>(&mut seat, place, seat_bit(number));
        Pass {
            seat,
            number,
            phase: Phase::Outside,
            loaded,
        }
    }
}
