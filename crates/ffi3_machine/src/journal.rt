//! The journal: what the machine was at each entry and each return.
ghost use Rattle.std.specs.Prelude.{◌≡◌, ◌<◌, ◌≤◌, ◌+◌, ◌-◌, ◌*◌, ◌++◌, [], ◌∷◌, length, OnOk, OnErr};
ghost use Rattle.ffi3_machine_spec.specs.Recorded.{Recorded, event_at};
ghost use Rattle.ffi3_machine.specs.Entries.{event_of};

use crate::NoMemory;
use std::alloc::{AllocError, Global};
use std::marker::Model;

/// What an event tells of: a closure's entry, or a return.
#[derive(Clone, Copy, Debug, PartialEq, Eq)]
pub enum EventKind {
    Enter,
    Leave,
}

/// The registers at an entry or at a return. `closure` is the address of the closure that is entered, and 0 at a
/// return.
#[derive(Clone, Copy, Debug)]
pub struct Event {
    pub kind: EventKind,
    pub closure: u64,
    pub general: [u64; 32],
    pub floating: [u64; 32],
    pub sp: u64,
}

/// An event, and the range of its stack's bytes.
#[derive(Clone, Copy)]
pub struct Entry {
    event: Event,
    from: usize,
    to: usize,
}

/// The events of a machine in order, each with the bytes of stack that were recorded.
#[derive(Drop)]
pub struct Journal {
    entries: Vec<Entry>,
    bytes: Vec<u8>,
    spare_events: usize,
    spare_bytes: usize,
}

impl Model for Journal {
    ghost use Rattle.std.specs.Prelude.{◌≤◌, ◌+◌, length, vec_len, vec_capacity};
    ghost use Rattle.std.specs.List.{AllByRecursion};
    ghost use Rattle.ffi3_machine_spec.specs.Recorded.{Recorded};

    ghost Value = { Recorded };

    ghost use Rattle.ffi3_machine.specs.Entries.{entry_events, LiesWithin};

    ghost view = { λ j. record {
      events = entry_events j.bytes.items j.entries.items;
      spare_events = j.spare_events;
      spare_bytes = j.spare_bytes;
    } };

    ghost invariant = { λ j. AllByRecursion (LiesWithin (length j.bytes.items)) j.entries.items
        × (vec_len j.entries + j.spare_events ≤ vec_capacity j.entries)
        × (vec_len j.bytes + j.spare_bytes ≤ vec_capacity j.bytes) };
}

impl Journal {
    /// No events, and no room for any.
    pub(crate) fn new(alloc: Global) -> Journal
        ensures { result ≡ record { events = []; spare_events = 0; spare_bytes = 0 } }
    {
        Journal {
            entries: Vec::new(alloc),
            bytes: Vec::new(alloc),
            spare_events: 0,
            spare_bytes: 0,
        }
    }

    /// How many events there are.
    pub fn len(&self) -> usize
        ensures { result ≡ length self.now.events }
    {
        self.entries.len()
    }

    /// Event `i`.
    pub fn get(&self, i: usize) -> &Event
        requires { i < length self.now.events }
        ensures { event_of result.now (event_at self.now.events i).image.stack ≡ event_at self.now.events i }
    {
        &self.entries[i].event
    }

    /// The bytes of stack that were recorded with event `i`, from its sp on.
    pub fn stack(&self, i: usize) -> &[u8]
        requires { i < length self.now.events }
        ensures { result.now ≡ (event_at self.now.events i).image.stack }
    {
        let entry = &self.entries[i];
        &self.bytes[entry.from..entry.to]
    }

    /// No events; the room stays.
    pub(crate) fn clear(&mut self)
        ensures { self.new ≡ record self.old { events = [] } }
    {
        self.entries.clear();
        self.bytes.clear();
    }

    /// Room for two more events, each with this many bytes of stack. Refused, it changes nothing.
    pub(crate) fn make_room(&mut self, bytes: u64) -> Result<(), NoMemory>
        ensures ok { OnOk result (self.new ≡ record self.old {
          spare_events = self.old.spare_events + 2;
          spare_bytes = self.old.spare_bytes + 2 * bytes;
        }) }
        ensures err { OnErr result (self.new ≡ self.old) }
    {
        let Some(events) = self.spare_events.checked_add(2) else {
            return Err(AllocError);
        };
        let Some(both) = (bytes as usize).checked_mul(2) else {
            return Err(AllocError);
        };
        let Some(room) = self.spare_bytes.checked_add(both) else {
            return Err(AllocError);
        };
        self.entries.reserve(events)?;
        self.bytes.reserve(room)?;
        self.spare_events = events;
        self.spare_bytes = room;
        Ok(())
    }

    /// One more event, with these bytes of stack. There is room for it.
    pub(crate) fn add(&mut self, event: Event, stack: &[u8])
        requires events { 1 ≤ self.old.spare_events }
        requires bytes { length stack.now ≤ self.old.spare_bytes }
        ensures { self.new ≡ record {
          events = self.old.events ++ event_of event stack.now ∷ [];
          spare_events = self.old.spare_events - 1;
          spare_bytes = self.old.spare_bytes - length stack.now;
        } }
    {
        let from = self.bytes.len();
        let _ = self.bytes.extend_from_slice(stack);
        self.entries.push_reserved(Entry {
            event,
            from,
            to: self.bytes.len(),
        });
        self.spare_events -= 1;
        self.spare_bytes -= stack.len();
    }
}
