//! The room of events read before, which the next ones take.
ghost use Rattle.std.specs.Prelude.{◌≡◌, []};

use crate::event::{Event, Name, TraceArg};
use std::alloc::Global;
use std::mem::replace;

/// How many lists of names are kept: as many as a command has parameters at most.
const MOST_LISTS: usize = 6;

/// Room for the events of a trace. A line that is read takes it, and an event that is given back leaves its own, so that lines
/// which are read one after the other take memory only where one is longer than those before it.
pub struct EventRoom {
    alloc: Global,
    args: Vec<TraceArg>,
    places: Vec<Vec<Option<Name>>>,
    results: Vec<Name>,
    payload: Vec<u8>,
}

impl Drop for EventRoom {
    fn drop(self) {
        let EventRoom {
            alloc: _alloc,
            args: _args,
            places: _places,
            results: _results,
            payload: _payload,
        } = self;
    }
}

/// An empty vector with the room of this one, in whose place a new one stands.
fn take<T: Drop>(alloc: Global, vector: &mut Vec<T>) -> Vec<T>
    ensures { result.items ≡ [] }
{
    let mut taken = replace(vector, Vec::new(alloc));
    taken.clear();
    taken
}

impl EventRoom {
    /// No room yet. It takes no memory.
    pub fn new(alloc: Global) -> EventRoom {
        EventRoom {
            alloc,
            args: Vec::new(alloc),
            places: Vec::new(alloc),
            results: Vec::new(alloc),
            payload: Vec::new(alloc),
        }
    }

    /// Room for arguments.
    pub(crate) fn take_args(&mut self) -> Vec<TraceArg>
        ensures { result.items ≡ [] }
    {
        take(self.alloc, &mut self.args)
    }

    /// Room for the places of an argument.
    pub(crate) fn take_places(&mut self) -> Vec<Option<Name>>
        ensures { result.items ≡ [] }
    {
        match self.places.pop() {
            None => Vec::new(self.alloc),
            Some(mut places) => {
                places.clear();
                places
            }
        }
    }

    /// Room for results.
    pub(crate) fn take_results(&mut self) -> Vec<Name>
        ensures { result.items ≡ [] }
    {
        take(self.alloc, &mut self.results)
    }

    /// Room for a payload.
    pub(crate) fn take_payload(&mut self) -> Vec<u8>
        ensures { result.items ≡ [] }
    {
        take(self.alloc, &mut self.payload)
    }

    // Keeps a list of places, where there aren't enough.
    fn keep(&mut self, places: Vec<Option<Name>>) {
        if self.places.len() < MOST_LISTS {
            let _full = self.places.push(places);
        }
    }

    /// Takes the room of an event that isn't needed any more.
    pub fn give_back(&mut self, event: Event) {
        if let Event::Begin {
            args,
            results,
            payload,
            ..
        } = event
        {
            let mut args = args;
            while let Some(arg) = args.pop() {
                self.keep(arg.names);
            }
            self.args = args;
            self.results = results;
            self.payload = payload;
        }
    }
}
