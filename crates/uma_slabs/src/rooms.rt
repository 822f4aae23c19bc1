ghost use Rattle.std.specs.Prelude.{◌≡◌, ◌≤◌, true, false, None, Some, IsTrue, take, length, slice_get, slice_set, replicate, ◌-◌, ◌<◌, ◌++◌, IfSome, IfNone, IfOk};
ghost use Rattle.uma_slabs.specs.Room.{IsRoomCount, MayGive, MayTake, TakesFrom, room_at, empty_room, is_absent, can_take, is_wholly_free, IsFirstThat, IsLastThat, NonePassFrom};
ghost use Rattle.uma_slabs.specs.Standing.{IsChosen, Marks};

use slab_bits::{Bits, Wide};
use std::alloc::{AllocError, Global};
use std::marker::Model;

/// The room for the slab of one index, with the set of its free places. The places past the last are no members.
#[derive(Debug, Drop)]
pub(crate) struct Room {
    domain: Option<u8>,
    free: Bits,
    places: u32,
}

impl Model for Room {
    ghost use Rattle.std.specs.Prelude.{take};
    ghost use Rattle.uma_slabs.specs.Room.{RoomState, IsRoom};

    ghost Value = { RoomState };

    ghost view = { λ r. record { domain = r.domain; free = take r.places r.free } };

    ghost invariant = { λ r. IsRoom r.places r.free };
}

impl Room {
    ghost use Rattle.uma_slabs.specs.Room.{TakesPlace, RoomState, is_partly_used};

    /// Room for a slab of so many places, with none in.
    pub fn new(places: u32) -> Room
        requires { places ≤ 256 }
        ensures { result ≡ record { domain = None; free = replicate places false } }
    {
        Room {
            domain: None,
            free: Bits::empty(),
            places,
        }
    }

    /// The domain of the slab.
    pub fn domain(&self) -> Option<u8>
        ensures { result ≡ self.now.domain }
    {
        self.domain
    }

    /// Whether a slab is in that has a free place.
    pub fn can_take(&self) -> bool
        ensures { result ≡ can_take self.now }
    {
        self.domain.is_some() && 0 < self.free.count()
    }

    /// Whether a slab is in that has a free place and a used one.
    pub fn is_partly_used(&self) -> bool
        ensures { result ≡ is_partly_used self.now }
    {
        self.can_take() && self.free.count() < self.places
    }

    /// Whether a slab is in, all of whose places are free.
    pub fn is_wholly_free(&self) -> bool
        ensures { result ≡ is_wholly_free self.now }
    {
        self.domain.is_some() && self.free.count() == self.places
    }

    /// Brings in a slab, all of whose places are free.
    pub fn bring(&mut self, domain: u8)
        ensures { self.new ≡ record { domain = Some domain; free = replicate (length self.old.free) true } }
    {
        self.domain = Some(domain);
        self.free = Bits::first_n(self.places);
    }

    /// Gives the slab up.
    pub fn give_up(&mut self)
        ensures { self.new ≡ record self.old { domain = None } }
    {
        self.domain = None;
    }

    /// Takes the least free place.
    pub fn take(&mut self) -> u32
        requires { IsTrue (can_take self.old) }
        ensures { TakesPlace self.old result self.new }
    {
        let place = self.free.first().unwrap();
        self.free.clear(place);
        place
    }

    /// Marks a used place as free.
    pub fn give(&mut self, place: u32)
        requires { slice_get self.old.free place ≡ Some false }
        ensures { self.new ≡ record self.old { free = slice_set self.old.free place true } }
    {
        self.free.set(place);
    }
}

/// The rooms of a keg by index, and the indices of each standing, so that the room to take from, to bring a slab into or
/// to give one up from is found without looking at each.
#[derive(Debug, Drop)]
pub(crate) struct Rooms {
    rooms: Vec<Room>,
    standings: Standings,
}

impl Model for Rooms {
    ghost use Rattle.std.specs.Prelude.{List};
    ghost use Rattle.uma_slabs.specs.Room.{RoomState};
    ghost use Rattle.uma_slabs.specs.Standing.{AreStandings};

    ghost Value = { List RoomState };

    ghost view = { λ r. r.rooms.items };

    ghost invariant = { λ r. AreStandings r.rooms.items r.standings.partly_used r.standings.wholly_free r.standings.absent };
}

impl Rooms {
    ghost use Rattle.uma_slabs.specs.Room.{RoomState};

    /// So many rooms for slabs of so many places, and no slab in.
    pub fn new(alloc: Global, slabs: u32, places: u32) -> Result<Rooms, AllocError>
        requires { IsRoomCount slabs places }
        ensures { IfOk result (λ rooms. rooms ≡ replicate slabs (empty_room places)) }
    {
        let rooms = empty_rooms(alloc, slabs, places)?;
        Ok(Rooms {
            rooms,
            standings: Standings {
                partly_used: Wide::empty(),
                wholly_free: Wide::empty(),
                absent: numbers_below(slabs),
            },
        })
    }

    /// The least index whose slab isn't in.
    pub fn first_absent(&self) -> Option<u32>
        ensures first { IfSome result (IsFirstThat is_absent self.now) }
        ensures none { IfNone result (NonePassFrom is_absent self.now 0) }
    {
        self.standings.absent.first()
    }

    /// The index of a slab to take from: one that is partly used, or else one that is wholly free. None where no place is
    /// free.
    pub fn to_take(&self) -> Option<u32>
        ensures chosen { IfSome result (IsChosen self.now) }
        ensures none { IfNone result (NonePassFrom can_take self.now 0) }
    {
        match self.standings.partly_used.first() {
            None => self.standings.wholly_free.first(),
            index => index,
        }
    }

    /// The greatest index whose slab is wholly free.
    pub fn last_wholly_free(&self) -> Option<u32>
        ensures last { IfSome result (IsLastThat is_wholly_free self.now) }
        ensures none { IfNone result (NonePassFrom is_wholly_free self.now 0) }
    {
        self.standings.wholly_free.last()
    }

    /// The domain of the slab of this index.
    pub fn domain(&self, index: u32) -> Option<u8>
        requires { index < length self.now }
        ensures { result ≡ (room_at self.now index).domain }
    {
        self.rooms[index as usize].domain()
    }

    /// Brings in a slab, all of whose places are free.
    pub fn bring(&mut self, index: u32, domain: u8)
        requires { index < length self.old }
        ensures { self.new ≡ slice_set self.old index (record { domain = Some domain; free = replicate (length (room_at self.old index).free) true }) }
    {
        let room = &mut self.rooms[index as usize];
        room.bring(domain);
        self.standings.put(index, room);
    }

    /// Gives a slab up.
    pub fn give_up(&mut self, index: u32)
        requires { index < length self.old }
        ensures { self.new ≡ slice_set self.old index (record (room_at self.old index) { domain = None }) }
    {
        let room = &mut self.rooms[index as usize];
        room.give_up();
        self.standings.put(index, room);
    }

    /// Takes the least free place of a slab.
    pub fn take(&mut self, index: u32) -> u32
        requires { MayTake self.old index }
        ensures { TakesFrom self.old index result self.new }
    {
        let room = &mut self.rooms[index as usize];
        let place = room.take();
        self.standings.put(index, room);
        place
    }

    /// Marks a used place of a slab as free.
    pub fn give(&mut self, index: u32, place: u32)
        requires { MayGive self.old index place }
        ensures { self.new ≡ slice_set self.old index (record (room_at self.old index) { free = slice_set (room_at self.old index).free place true }) }
    {
        let room = &mut self.rooms[index as usize];
        room.give(place);
        self.standings.put(index, room);
    }
}

/// So many rooms for slabs of so many places, and no slab in.
fn empty_rooms(alloc: Global, slabs: u32, places: u32) -> Result<Vec<Room>, AllocError>
    requires { places ≤ 256 }
    ensures { IfOk result (λ rooms. rooms.items ≡ replicate slabs (empty_room places)) }
{
    let mut rooms = Vec::with_capacity(alloc, slabs as usize)?;
    for _ in 0..slabs {
        rooms.push(Room::new(places))?;
    }
    Ok(rooms)
}

/// The numbers below `n`, which is at most 1,024.
fn numbers_below(n: u32) -> Wide
    requires { n ≤ 1024 }
    ensures { result ≡ replicate n true ++ replicate (1024 - n) false }
{
    let mut numbers = Wide::empty();
    for no in 0..n {
        numbers.set(no);
    }
    numbers
}

/// The indices of the slabs that are partly used, of those that are wholly free, and those whose slab isn't in. A slab
/// that is wholly used has none of these standings.
#[derive(Debug, Drop)]
pub(crate) struct Standings {
    pub(crate) partly_used: Wide,
    pub(crate) wholly_free: Wide,
    pub(crate) absent: Wide,
}

impl Standings {
    /// Puts an index, which is below 1,024, where its room stands.
    pub fn put(&mut self, index: u32, room: &Room)
        requires { index < 1024 }
        ensures { Marks index room.now self.old.partly_used self.new.partly_used self.old.wholly_free self.new.wholly_free self.old.absent self.new.absent }
    {
        mark(&mut self.partly_used, index, room.is_partly_used());
        mark(&mut self.wholly_free, index, room.is_wholly_free());
        mark(&mut self.absent, index, room.domain().is_none());
    }
}

/// Makes this index a member, or none.
fn mark(set: &mut Wide, index: u32, is_member: bool)
    requires { index < 1024 }
    ensures { set.new ≡ slice_set set.old index is_member }
{
    if is_member {
        set.set(index)
    } else {
        set.clear(index)
    }
}
