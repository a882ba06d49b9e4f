//! The base of a receiver.

ghost use Rattle.std.specs.Prelude.{◌≡◌, ◌+◌, ◌^◌, ◌<◌, [], IfOk, IfErr};
ghost use Rattle.ix_sections.specs.Payload.{IsWithin, bytes_of, bytes_to};
ghost use Rattle.ix_known.specs.Known.{IsKnownIn};
ghost use Rattle.ix_known.specs.Base.{IsOfBase, AddsFile, IsBaseFault};

use crate::places::Places;
use ix_sections::{CarFault, Payload, read_header};
use ix_store::{PlaceSet, Store};
use std::alloc::Global;
use std::marker::Model;
use std::thread::Threads;

/// The base of a receiver, as far as its files were read: which blocks of a store it has.
#[derive(Drop)]
pub struct Base<'a> {
    store: &'a Store,
    places: Places,
}

impl<'a> Model for Base<'a> {
    ghost use Rattle.ix_known.specs.Base.{BaseMeaning};

    ghost Value = { BaseMeaning };

    ghost view = { λ b. record { store = b.store.now; places = b.places } };
}

impl<'a> Base<'a> {
    /// Begins with no file: the receiver has no block.
    pub fn new(alloc: Global, store: &'a Store) -> Base<'a>
        ensures store { result.store ≡ store.now }
        ensures empty { IsOfBase result [] }
    {
        Base {
            store,
            places: Places::new(alloc),
        }
    }

    /// Reads one file more, the payload of these bytes, after those so far. `threads` threads look its
    /// sections up and hash them. An error is the first of the file, as `BlockLoader` returns it.
    pub fn with_file<R: Threads + Sync>(
        self,
        rt: &R,
        alloc: Global,
        file: &[u8],
        payload: Payload,
        threads: usize,
    ) -> Result<Base<'a>, CarFault>
        requires { IsWithin payload file.now }
        ensures added { IfOk result (AddsFile self.entry (bytes_of payload file.now)) }
        ensures refused { IfErr result
            (IsBaseFault (bytes_to payload file.now) (bytes_of payload file.now)) }
    {
        let (whole, _) = file.split_at(payload.end);
        let (_, car) = whole.split_at(payload.start);
        let sections = match read_header(alloc, car) {
            Ok((_, sections)) => sections,
            Err(fault) => return Err(fault_after(payload.start, fault)),
        };
        let Base { store, mut places } = self;
        places.add_sections(rt, alloc, store, whole.len(), sections, threads)?;
        Ok(Base { store, places })
    }

    /// Returns the positions in the store of the blocks that the receiver has.
    pub fn into_known(self) -> PlaceSet
        ensures { (base : _) → IsOfBase self.entry base → IsKnownIn self.entry.store base result }
    {
        self.places.known
    }
}

// Returns an error whose place is counted from an offset on, with its place counted from the front.
fn fault_after(start: usize, fault: CarFault) -> CarFault
    requires { start + fault.place < 2 ^ 64 }
    ensures { result ≡ record { kind = fault.kind; place = start + fault.place } }
{
    CarFault {
        kind: fault.kind,
        place: start + fault.place,
    }
}
