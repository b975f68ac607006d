//! The events that wait until the controller has them.

ghost use Rattle.std.specs.Prelude.{◌≡◌, ◌||◌, length, IfOk, is_some};
ghost use Rattle.std.specs.Option.{option_map};
ghost use Rattle.osdp_msg.specs.Events.{event_reply};
ghost use Rattle.osdp_reader.specs.Queue.{empty_queue, event_for, has_room, in_doubt, lapsed, never_offered, queued, queued_if, released, unoffered, withdrawn};

use osdp_msg::{Command, Event, Room, Spelling};
use osdp_ring::Ring;
use std::alloc::{AllocError, Global};
use std::marker::Model;

/// Events from the oldest on. The front may have been offered: it stays until the controller has shown that it has it.
#[derive(Drop)]
pub struct EventQueue {
    /// The code and the data of each.
    events: Ring,
    /// Whether the front is offered in this session.
    offered: bool,
    /// Whether the front was ever offered, in this session or in one before.
    ever_offered: bool,
}

impl Model for EventQueue {
    ghost use Rattle.std.specs.Prelude.{map};
    ghost use Rattle.std.specs.List.{All};
    ghost use Rattle.osdp_msg.specs.Kept.{event_kept};
    ghost use Rattle.osdp_reader.specs.Queue.{IsEvent, Queue};

    ghost Value = { Queue };

    ghost view = { λ q. record { events = map event_kept q.events.items; capacity = q.events.capacity; room = q.events.room; offered = q.offered; ever_offered = q.ever_offered } };

    ghost invariant = { λ q. All IsEvent q.events.items };
}

impl EventQueue {
    /// No event, and room for so many.
    pub fn new(alloc: Global, room: Room) -> Result<EventQueue, AllocError>
        ensures { IfOk result (λ q. q ≡ empty_queue room.messages room.bytes) }
    {
        let events = Ring::new(alloc, room.messages, room.bytes)?;
        Ok(EventQueue {
            events,
            offered: false,
            ever_offered: false,
        })
    }

    /// How many events wait, an offered one included.
    pub fn len(&self) -> usize
        ensures { result ≡ length self.now.events }
    {
        self.events.len()
    }

    /// How many may wait, and how many bytes of them together.
    pub fn room(&self) -> Room
        ensures { result ≡ record { messages = self.now.capacity; bytes = self.now.room } }
    {
        Room {
            messages: self.events.capacity(),
            bytes: self.events.room(),
        }
    }

    /// Whether the front was ever offered, in this session or in one before.
    pub fn is_in_doubt(&self) -> bool
        ensures { result ≡ self.now.ever_offered }
    {
        self.ever_offered
    }

    /// Puts an event after the others, where it has room. Whether it has; else nothing changes.
    pub fn submit(&mut self, event: &Event<'_>) -> bool
        ensures room { result ≡ has_room event.now self.old }
        ensures queue { self.new ≡ queued_if result event.now self.old }
    {
        let mut spelling = Spelling::new();
        event.write_into(&mut spelling);
        self.events.push(spelling.as_slice())
    }

    /// Lets an offered front go: the controller has it.
    pub fn release(&mut self)
        ensures { self.new ≡ released self.old }
    {
        if !self.offered {
            return;
        }
        self.events.pop();
        self.offered = false;
        self.ever_offered = false;
    }

    /// Offers nothing any more. All events stay.
    pub fn stop_offering(&mut self)
        ensures { self.new ≡ unoffered self.old }
    {
        self.offered = false;
    }

    /// The oldest event that was never offered, if there is one.
    pub fn never_offered(&self) -> Option<Event<'_>>
        ensures { result ≡ never_offered self.now }
    {
        if self.ever_offered {
            return Some(Event::kept(self.events.second()?));
        }
        Some(Event::kept(self.events.front()?))
    }

    /// Takes it back. Whether there was one.
    pub fn withdraw(&mut self) -> bool
        ensures event { result ≡ is_some (never_offered self.old) }
        ensures queue { self.new ≡ withdrawn self.old }
    {
        let count = self.events.len();
        if self.ever_offered {
            self.events.pop_second();
            return 2 <= count;
        }
        self.events.pop();
        1 <= count
    }

    /// The front, where it was ever offered.
    pub fn in_doubt(&self) -> Option<Event<'_>>
        ensures { result ≡ in_doubt self.now }
    {
        if !self.ever_offered {
            return None;
        }
        Some(Event::kept(self.events.front()?))
    }

    /// Lets it go. Whether there was one. Nothing is offered any more then.
    pub fn lapse(&mut self) -> bool
        ensures event { result ≡ is_some (in_doubt self.old) }
        ensures queue { self.new ≡ lapsed self.old }
    {
        if !self.ever_offered {
            return false;
        }
        let some = 1 <= self.events.len();
        self.stop_offering();
        self.ever_offered = false;
        self.events.pop();
        some
    }

    /// The event that is told: the front, where the command is a POLL and an event waits.
    pub fn told_event(&self, command: &Command<'_>) -> Option<Event<'_>>
        ensures { option_map event_reply result ≡ event_for command.now self.now.events }
    {
        match command {
            Command::Poll => Some(Event::kept(self.events.front()?)),
            _ => None,
        }
    }

    /// Keeps whether the front was told: it is offered then.
    pub fn offer(&mut self, told: bool)
        ensures { self.new ≡ record self.old { offered = told; ever_offered = told || self.old.ever_offered } }
    {
        self.offered = told;
        self.ever_offered = told || self.ever_offered;
    }
}
