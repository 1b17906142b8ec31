// What a worker remembers of objects that its own deletions left vacant.
ghost use Rattle.std.specs.Prelude.{◌≡◌, ◌≤◌, ◌+◌, ◌++◌, ◌∷◌, [], length, IfOk, MatchOption, ⊤};
ghost use Rattle.set_catalog.specs.Hinted.{noted};

use hash_set::list_set::Fingers;
use std::alloc::{AllocError, Global};
use std::marker::Model;
use std::mem::replace;

/// Objects that are likely to be vacant, so that an add seldom looks through all nodes.
///
/// It is seen as a list of at most `room` object numbers, in the order in which they were noted. A
/// hint may be wrong, or no object at all. Beside the list it keeps of which seat they are, where its last look
/// through the nodes ended, and the fingers into lists of the store that gets these hints; no clause speaks of that.
#[derive(Drop)]
pub struct Hints {
    // None in the form that takes no memory.
    objects: Option<Vec<u32>>,
    room: usize,
    seat: u32,
    // None before the first look.
    next: Option<u32>,
    fingers: Fingers,
}

impl Model for Hints {
    ghost use Rattle.set_catalog.specs.Hinted.{Hinted, objects_of, HasRoom};

    ghost Value = { Hinted };

    ghost view = { λ h. record { room = h.room; objects = objects_of h.objects } };

    ghost invariant = { λ h. HasRoom h.objects h.room };
}

impl Hints {
    /// No hints, with room for so many. The error is want of memory; no other call takes memory.
    pub fn new(alloc: Global, room: u32) -> Result<Hints, AllocError>
        ensures { IfOk result (λ hints. hints ≡ record { room = room; objects = [] }) }
    {
        let room = room as usize;
        Ok(Hints {
            objects: Some(Vec::with_capacity(alloc, room)?),
            room,
            seat: 0,
            next: None,
            fingers: Fingers::new(alloc)?,
        })
    }

    /// No hints, with room for none. It takes no memory.
    pub fn none() -> Hints
        ensures { result ≡ record { room = 0; objects = [] } }
    {
        Hints {
            objects: None,
            room: 0,
            seat: 0,
            next: None,
            fingers: Fingers::none(),
        }
    }

    /// These hints, as those of the seat of this number: its looks begin at a share of the nodes that is its own.
    pub fn of_seat(self, seat: u32) -> Hints
        ensures { result ≡ self }
    {
        let mut hints = self;
        hints.seat = seat;
        hints
    }

    // From here on they are those of the seat of this number.
    pub(crate) fn belong_to(&mut self, seat: u32)
        ensures { self.new ≡ self.old }
    {
        self.seat = seat;
    }

    /// Puts the object last, whatever it is. Where the list is full, the first object goes; with room
    /// for none, nothing changes.
    pub fn note(&mut self, object: u32)
        ensures { self.new ≡ noted self.old object }
    {
        let Some(objects) = &mut self.objects else {
            return;
        };
        if self.room == 0 {
            return;
        }
        if objects.len() == self.room {
            objects.remove(0);
        }
        objects.push_reserved(object);
    }

    /// The number of hints, at most `room`.
    pub fn len(&self) -> u32
        ensures count { result ≡ length self.now.objects }
        ensures few { length self.now.objects ≤ self.now.room }
    {
        match &self.objects {
            Some(objects) => objects.len() as u32,
            None => 0,
        }
    }

    // Takes the last hint.
    pub(crate) fn take(&mut self) -> Option<u32>
        ensures room { self.new.room ≡ self.old.room }
        ensures taken { MatchOption result (self.new.objects ≡ self.old.objects) (λ object. self.old.objects ≡ self.new.objects ++ object ∷ []) }
        ensures none { MatchOption result (self.old.objects ≡ []) (λ object. ⊤) }
    {
        match &mut self.objects {
            Some(objects) => objects.pop(),
            None => None,
        }
    }

    // The number of the seat.
    pub(crate) fn seat(&self) -> u32 {
        self.seat
    }

    // Where the next look through the nodes begins. None before the first one.
    pub(crate) fn next(&self) -> Option<u32> {
        self.next
    }

    // A look ended before this object.
    pub(crate) fn look_on_from(&mut self, object: u32)
        ensures { self.new ≡ self.old }
    {
        self.next = Some(object);
    }

    // Takes the fingers out.
    pub(crate) fn take_fingers(&mut self) -> Fingers
        ensures { self.new ≡ self.old }
    {
        replace(&mut self.fingers, Fingers::none())
    }
}
