ghost use Rattle.std.specs.Prelude.{◌≡◌, ◌+◌, ◌<◌, ◌≤◌, length, ◌∷◌, replicate, IfOk, ◌^◌};
ghost use Rattle.smr_core.specs.CoreState.{first_worker, CoreLaw, first_workers, opening};
ghost use Rattle.smr_core.specs.CoreStep.{FindsActor, TakesStep};
ghost use Rattle.smr_core.specs.Works.{state_of};
ghost use Rattle.smr_core.specs.declared.turns.Step.{Step};

use crate::clock_core::ClockConfig;
use crate::hands::{
    READ_PLACE, WRITE_PLACE, exchanged, is_spent, opening_words, presence_place, seat_place,
    with_seat, without,
};
use crate::holder::{Holder, Phase, Task};
use crate::turns::{Seen, Step, StepRefused};
use smr_seq::Seq;
use std::alloc::{AllocError, Global};

/// A holder of the core, with what its poll is after.
#[derive(Clone, Copy, Debug, PartialEq, Eq)]
pub struct Actor {
    pub holder: Holder,
    /// In PollRead and Scanning, the tag that is polled.
    pub tag: u32,
    /// In Scanning, the reading of the tag near the write sequence that the poll loaded.
    pub reading: u64,
}

impl Actor {
    /// The worker of a seat before any step. It knows where both sequences begin.
    pub fn first(config: ClockConfig, seat: u32) -> Self
        ensures { result ≡ first_worker config seat }
    {
        let holder = Holder {
            seat: Some(seat),
            phase: Phase::Outside,
            seen: config.start,
            floor: config.start,
            ..Holder::spent()
        };
        Actor {
            holder,
            tag: 0,
            reading: 0,
        }
    }

    /// The same, with its holder as a step leaves it.
    pub fn with(self, holder: Holder) -> Self
        ensures { result ≡ record self { holder = holder } }
    {
        Actor { holder, ..self }
    }

    /// The refusal of a step that doesn't suit the phase or the task of this actor.
    pub fn out_of_turn(&self, seat: u32) -> StepRefused
        ensures { result ≡ StepRefused.OutOfTurn seat self.now.holder.phase self.now.holder.task }
    {
        StepRefused::OutOfTurn {
            seat,
            phase: self.holder.phase,
            task: self.holder.task,
        }
    }
}

/// The actors before any step.
#[tactic(auto, using(crate::proofs::OpeningLemmas::first_workers_more))]
fn opening_actors(alloc: Global, config: ClockConfig) -> Result<Vec<Actor>, AllocError>
    ensures { IfOk result (λ actors. actors.items ≡ first_workers config config.seats) }
{
    let mut actors = Vec::new(alloc);
    for seat in 0..config.seats {
        actors.push(Actor::first(config, seat))?;
    }
    Ok(actors)
}

/// The parts of a core, whose methods take its steps, one each. The core's law is their condition,
/// and `Core` keeps it.
#[derive(Drop)]
pub struct Works {
    pub config: ClockConfig,
    pub words: Vec<u64>,
    pub actors: Vec<Actor>,
}

impl Works {
    /// Both sequences at the start, every seat's word 0, and a worker for each seat.
    pub fn open(alloc: Global, config: ClockConfig) -> Result<Self, AllocError>
        requires { config.seats ≤ 64 }
        ensures { IfOk result (λ works. state_of works ≡ opening config) }
    {
        Ok(Works {
            config,
            words: opening_words(alloc, config)?,
            actors: opening_actors(alloc, config)?,
        })
    }

    /// Takes one step, or refuses it.
    pub fn apply(&mut self, step: Step) -> Result<Seen, StepRefused>
        requires { CoreLaw (state_of self.old) }
        ensures { TakesStep (state_of self.old) step result (state_of self.new) }
    {
        match step {
            Step::EnterLoad { seat } => self.enter_load(seat),
            Step::EnterStore { seat } => self.enter_store(seat),
            Step::EnterCheck { seat } => self.enter_check(seat),
            Step::Clear { seat } => self.clear(seat),
            Step::Leave { seat } => self.leave(seat),
            Step::Come { seat } => self.come(seat),
            Step::AdvanceRead { seat } => self.advance_read(seat),
            Step::AdvanceLoad { seat } => self.advance_load(seat),
            Step::AdvanceSwap { seat } => self.advance_swap(seat),
            Step::PollRead { seat, tag } => self.poll_read(seat, tag),
            Step::PollLoad { seat } => self.poll_load(seat),
            Step::PollPresent { seat } => self.poll_present(seat),
            Step::PollScan { seat } => self.poll_scan(seat),
            Step::PollSwap { seat } => self.poll_swap(seat),
            Step::Note { seat } => self.note(seat),
            Step::Absorb { seat, note } => self.absorb(seat, note),
        }
    }

    /// The actor of a number.
    #[tactic(auto, using(crate::proofs::PlaceLemmas::at_index))]
    pub fn actor(&self, number: u32) -> Result<Actor, StepRefused>
        requires { CoreLaw (state_of self.now) }
        ensures { FindsActor (state_of self.now) number result }
    {
        let seats = self.actors.len() as u32;
        if number < seats {
            Ok(self.actors[number as usize])
        } else {
            Err(StepRefused::NoSeat {
                seat: number,
                seats,
            })
        }
    }
}

/// The steps of enter and exit.
impl Works {
    /// The first step of an enter.
    pub fn enter_load(&mut self, seat: u32) -> Result<Seen, StepRefused>
        requires { CoreLaw (state_of self.old) }
        ensures { TakesStep (state_of self.old) (Step.EnterLoad seat) result (state_of self.new) }
    {
        let actor = self.actor(seat)?;
        if actor.holder.phase != Phase::Outside {
            return Err(actor.out_of_turn(seat));
        }
        let found = self.words[WRITE_PLACE];
        let holder = actor.holder.enter_loaded(self.config, found);
        self.actors[seat as usize] = actor.with(holder);
        Ok(Seen::Hand { value: found })
    }

    /// The second step of an enter.
    pub fn enter_store(&mut self, seat: u32) -> Result<Seen, StepRefused>
        requires { CoreLaw (state_of self.old) }
        ensures { TakesStep (state_of self.old) (Step.EnterStore seat) result (state_of self.new) }
    {
        let actor = self.actor(seat)?;
        if actor.holder.phase != Phase::Loaded {
            return Err(actor.out_of_turn(seat));
        }
        self.words[seat_place(seat)] = actor.holder.entry_word();
        self.actors[seat as usize] = actor.with(actor.holder.enter_stored());
        Ok(Seen::Done)
    }

    /// The third step of an enter, the entry.
    pub fn enter_check(&mut self, seat: u32) -> Result<Seen, StepRefused>
        requires { CoreLaw (state_of self.old) }
        ensures { TakesStep (state_of self.old) (Step.EnterCheck seat) result (state_of self.new) }
    {
        let actor = self.actor(seat)?;
        if actor.holder.phase != Phase::Stored {
            return Err(actor.out_of_turn(seat));
        }
        // The mark is loaded after the word is stored: a poll that finds no word here loaded a write sequence that is at most this mark.
        // If the hand has moved by the window since the first load, a poll could misread the word, so the enter is late.
        let loaded = actor.holder.loaded;
        let found = self.words[WRITE_PLACE];
        let late = actor.holder.is_overtaken(self.config, found);
        let holder = actor.holder.enter_checked(self.config, found);
        self.actors[seat as usize] = actor.with(holder);
        if late {
            Ok(Seen::Late { loaded, found })
        } else {
            Ok(Seen::Inside { loaded, found })
        }
    }

    /// Exit.
    pub fn clear(&mut self, seat: u32) -> Result<Seen, StepRefused>
        requires { CoreLaw (state_of self.old) }
        ensures { TakesStep (state_of self.old) (Step.Clear seat) result (state_of self.new) }
    {
        let actor = self.actor(seat)?;
        if !matches!(actor.holder.phase, Phase::Inside | Phase::Late) {
            return Err(actor.out_of_turn(seat));
        }
        self.words[seat_place(seat)] = 0;
        self.actors[seat as usize] = actor.with(actor.holder.cleared());
        Ok(Seen::Done)
    }
}

/// The steps of an advance.
impl Works {
    /// The load of the read sequence.
    pub fn advance_read(&mut self, seat: u32) -> Result<Seen, StepRefused>
        requires { CoreLaw (state_of self.old) }
        ensures { TakesStep (state_of self.old) (Step.AdvanceRead seat) result (state_of self.new) }
    {
        let actor = self.actor(seat)?;
        if !actor.holder.is_idle_worker() {
            return Err(actor.out_of_turn(seat));
        }
        let found = self.words[READ_PLACE];
        self.actors[seat as usize] = actor.with(actor.holder.advance_read(found));
        Ok(Seen::Hand { value: found })
    }

    /// The load of the write sequence, which ends the advance where there is no room for two more.
    pub fn advance_load(&mut self, seat: u32) -> Result<Seen, StepRefused>
        requires { CoreLaw (state_of self.old) }
        ensures { TakesStep (state_of self.old) (Step.AdvanceLoad seat) result (state_of self.new) }
    {
        let actor = self.actor(seat)?;
        if actor.holder.task != Task::AdvRead {
            return Err(actor.out_of_turn(seat));
        }
        let read = actor.holder.read;
        let found = self.words[WRITE_PLACE];
        let too_far = actor.holder.is_too_far(self.config, found);
        let holder = actor.holder.advance_loaded(self.config, found);
        self.actors[seat as usize] = actor.with(holder);
        if is_spent(found) {
            Ok(Seen::Spent { write: found })
        } else if too_far {
            Ok(Seen::TooFar { read, write: found })
        } else {
            Ok(Seen::Hand { value: found })
        }
    }

    /// The exchange of the write sequence.
    pub fn advance_swap(&mut self, seat: u32) -> Result<Seen, StepRefused>
        requires { CoreLaw (state_of self.old) }
        ensures { TakesStep (state_of self.old) (Step.AdvanceSwap seat) result (state_of self.new) }
    {
        let actor = self.actor(seat)?;
        if actor.holder.task != Task::AdvLoaded {
            return Err(actor.out_of_turn(seat));
        }
        let write = actor.holder.write;
        let goal = write + 2;
        let found = self.words[WRITE_PLACE];
        self.words[WRITE_PLACE] = exchanged(write, goal, found);
        self.actors[seat as usize] = actor.with(actor.holder.advance_swapped(found));
        Ok(Seen::Goal {
            goal,
            moved: found == write,
        })
    }
}

/// The steps of a poll.
impl Works {
    /// The load of the read sequence, by a worker or a note.
    pub fn poll_read(&mut self, seat: u32, tag: u32) -> Result<Seen, StepRefused>
        requires { CoreLaw (state_of self.old) }
        ensures { TakesStep (state_of self.old) (Step.PollRead seat tag) result (state_of self.new) }
    {
        let actor = self.actor(seat)?;
        if !actor.holder.may_poll() {
            return Err(actor.out_of_turn(seat));
        }
        let found = self.words[READ_PLACE];
        let holder = actor.holder.poll_read(found);
        self.actors[seat as usize] = Actor {
            holder,
            tag,
            ..actor
        };
        Ok(Seen::Hand { value: found })
    }

    /// The load of the write sequence, which ends the poll where its tag is known to be expired.
    pub fn poll_load(&mut self, seat: u32) -> Result<Seen, StepRefused>
        requires { CoreLaw (state_of self.old) }
        ensures { TakesStep (state_of self.old) (Step.PollLoad seat) result (state_of self.new) }
    {
        let actor = self.actor(seat)?;
        if actor.holder.task != Task::PollRead {
            return Err(actor.out_of_turn(seat));
        }
        let read = actor.holder.read;
        let found = self.words[WRITE_PLACE];
        match (Seq { raw: actor.tag }).read(found) {
            Some(reading) if read < reading => {
                let holder = actor.holder.poll_loaded(self.config, found);
                self.actors[seat as usize] = Actor {
                    holder,
                    reading,
                    ..actor
                };
                Ok(Seen::Hand { value: found })
            }
            _ => {
                let holder = actor.holder.poll_ended(self.config, found);
                self.actors[seat as usize] = actor.with(holder);
                Ok(Seen::Yes { read })
            }
        }
    }

    /// The load of the presence word, which is the poll's set of seats.
    pub fn poll_present(&mut self, seat: u32) -> Result<Seen, StepRefused>
        requires { CoreLaw (state_of self.old) }
        ensures { TakesStep (state_of self.old) (Step.PollPresent seat) result (state_of self.new) }
    {
        let actor = self.actor(seat)?;
        if actor.holder.task != Task::PollLoaded {
            return Err(actor.out_of_turn(seat));
        }
        let found = self.words[presence_place(self.config)];
        let holder = actor.holder.poll_present(self.config, found);
        self.actors[seat as usize] = actor.with(holder);
        Ok(Seen::Present { seats: found })
    }

    /// The load of the word of the next seat of the poll's set.
    pub fn poll_scan(&mut self, seat: u32) -> Result<Seen, StepRefused>
        requires { CoreLaw (state_of self.old) }
        ensures { TakesStep (state_of self.old) (Step.PollScan seat) result (state_of self.new) }
    {
        let actor = self.actor(seat)?;
        let scanned = actor.holder.scanned;
        if actor.holder.task != Task::Scanning || scanned >= self.config.seats {
            return Err(actor.out_of_turn(seat));
        }
        let word = self.words[seat_place(scanned)] as u32;
        let holder = actor.holder.poll_scanned(self.config, word);
        self.actors[seat as usize] = actor.with(holder);
        Ok(Seen::Word {
            seat: scanned,
            word,
            least: holder.least,
        })
    }

    /// The exchange of the read sequence, and the answer.
    pub fn poll_swap(&mut self, seat: u32) -> Result<Seen, StepRefused>
        requires { CoreLaw (state_of self.old) }
        ensures { TakesStep (state_of self.old) (Step.PollSwap seat) result (state_of self.new) }
    {
        let actor = self.actor(seat)?;
        if actor.holder.task != Task::Scanning || actor.holder.scanned != self.config.seats {
            return Err(actor.out_of_turn(seat));
        }
        let found = self.words[READ_PLACE];
        let read = actor.holder.last_found(found);
        self.words[READ_PLACE] = read;
        self.actors[seat as usize] = actor.with(actor.holder.poll_swapped(found));
        if actor.reading <= read {
            Ok(Seen::Yes { read })
        } else {
            Ok(Seen::No { read })
        }
    }
}

/// The most holders that a core may have.
pub const MOST_HOLDERS: usize = 65_536;

/// The steps that make a note and take one in.
impl Works {
    /// A load of the write sequence, and the note is split off, which is the next holder.
    #[tactic(auto, using(crate::proofs::PlaceLemmas::set_push))]
    pub fn note(&mut self, seat: u32) -> Result<Seen, StepRefused>
        requires { CoreLaw (state_of self.old) }
        ensures { TakesStep (state_of self.old) (Step.Note seat) result (state_of self.new) }
    {
        let actor = self.actor(seat)?;
        if !actor.holder.is_idle_worker() {
            return Err(actor.out_of_turn(seat));
        }
        let number = self.actors.len();
        if number == MOST_HOLDERS {
            return Err(StepRefused::Crowded {
                holders: number as u32,
            });
        }
        let holder = actor
            .holder
            .write_loaded(self.config, self.words[WRITE_PLACE]);
        let note = Actor {
            holder: holder.note(),
            tag: 0,
            reading: 0,
        };
        if self.actors.push(note).is_err() {
            return Err(StepRefused::Memory);
        }
        self.actors[seat as usize] = actor.with(holder);
        Ok(Seen::Holder {
            number: number as u32,
        })
    }

    /// A note is taken in, and is spent.
    pub fn absorb(&mut self, seat: u32, note: u32) -> Result<Seen, StepRefused>
        requires { CoreLaw (state_of self.old) }
        ensures { TakesStep (state_of self.old) (Step.Absorb seat note) result (state_of self.new) }
    {
        let actor = self.actor(seat)?;
        let other = self.actor(note)?;
        if !actor.holder.is_idle_worker() {
            return Err(actor.out_of_turn(seat));
        }
        if !other.holder.is_idle_note() {
            return Err(other.out_of_turn(note));
        }
        self.actors[seat as usize] = actor.with(actor.holder.joined(&other.holder));
        self.actors[note as usize] = other.with(Holder::spent());
        Ok(Seen::Done)
    }
}

/// The steps by which the worker of a seat leaves and comes.
impl Works {
    /// The worker leaves its seat, which is vacant then.
    pub fn leave(&mut self, seat: u32) -> Result<Seen, StepRefused>
        requires { CoreLaw (state_of self.old) }
        ensures { TakesStep (state_of self.old) (Step.Leave seat) result (state_of self.new) }
    {
        let actor = self.actor(seat)?;
        if !actor.holder.may_leave() {
            return Err(actor.out_of_turn(seat));
        }
        let place = presence_place(self.config);
        self.words[place] = without(seat, self.words[place]);
        self.actors[seat as usize] = actor.with(actor.holder.left());
        Ok(Seen::Done)
    }

    /// A worker comes to a vacant seat.
    pub fn come(&mut self, seat: u32) -> Result<Seen, StepRefused>
        requires { CoreLaw (state_of self.old) }
        ensures { TakesStep (state_of self.old) (Step.Come seat) result (state_of self.new) }
    {
        let actor = self.actor(seat)?;
        if actor.holder.phase != Phase::Vacant {
            return Err(actor.out_of_turn(seat));
        }
        let place = presence_place(self.config);
        self.words[place] = with_seat(seat, self.words[place]);
        self.actors[seat as usize] = actor.with(actor.holder.came());
        Ok(Seen::Done)
    }
}
