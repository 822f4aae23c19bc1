ghost use Rattle.std.specs.Prelude.{◌≡◌, [], IfOk, OnOk, length};

use crate::worker::Held;
use std::alloc::Global;
use std::marker::Model;
use zone_stats::Memory;

/// What each slot of a worker holds, from slot 0 on. Contracts see the list of it; a slot past the list's end is empty.
///
/// The list grows to the greatest slot that was filled. What a slot holds lies in a box, which goes with what it held, so
/// an empty slot takes 16 bytes.
#[derive(Drop)]
pub struct Slots {
    held: Vec<Option<Box<Held>>>,
}

impl Model for Slots {
    ghost use Rattle.std.specs.Prelude.{List, Option, map};
    ghost use Rattle.replay_worker.specs.declared.worker.Held.{Held};
    ghost use Rattle.replay_worker.specs.Boxed.{unboxed};

    ghost Value = { List (Option Held) };

    ghost view = { λ s. map unboxed s.held.items };
}

impl Slots {
    ghost use Rattle.replay_worker.specs.Slots.{slot_at, padded, with_held, emptied};

    /// No slot is filled. There is room for so many slots, from slot 0 on, before memory is taken again.
    pub fn with_room(alloc: Global, count: usize) -> Result<Slots, Memory>
        ensures { IfOk result (λ slots. slots ≡ []) }
    {
        Ok(Slots {
            held: Vec::with_capacity(alloc, count)?,
        })
    }

    /// What the slot holds, which is empty then.
    pub fn take(&mut self, slot: u32) -> Option<Held>
        ensures taken { result ≡ slot_at self.old slot }
        ensures left { self.new ≡ emptied self.old slot }
    {
        let place = slot as usize;
        if place >= self.held.len() {
            return None;
        }
        match self.held[place].take() {
            Some(held) => Some(Box::into_inner(held)),
            None => None,
        }
    }

    /// Puts what is held into the slot. What lay there is dropped.
    pub fn put(&mut self, alloc: Global, slot: u32, held: Held) -> Result<(), Memory>
        ensures { OnOk result (self.new ≡ with_held self.old slot held) }
    {
        let place = slot as usize;
        self.grow(place + 1)?;
        let Ok(held) = Box::new(alloc, held) else {
            return Err(Memory);
        };
        self.held[place] = Some(held);
        Ok(())
    }

    /// Adds empty slots until there are so many.
    fn grow(&mut self, count: usize) -> Result<(), Memory>
        ensures { OnOk result (self.new ≡ padded self.old count) }
    {
        for _ in self.held.len()..count {
            self.held.push(None)?;
        }
        Ok(())
    }

    /// How many slots there are up to the greatest that was filled.
    pub fn len(&self) -> usize
        ensures { result ≡ length self.now }
    {
        self.held.len()
    }
}
