// The texts of a call, as a shelf, and what a call writes, as sinks.

ghost use Rattle.std.specs.Prelude.{◌≡◌, IfOk, IsTrue};
ghost use Rattle.pict_outside.specs.Entries.{pairs_of};

use pict_outside::{Entry, Fetched, MemoryShelf, MemorySink, Shelf, ShelfError, Sink, SinkFailed};
use std::alloc::{AllocError, Global};
use std::marker::Model;

/// The texts of a call by their names: a shelf that tells them, and never fails.
#[derive(Drop)]
pub(crate) struct Bundle {
    shelf: MemoryShelf,
}

impl Model for Bundle {
    ghost use Rattle.std.specs.Prelude.{◌≡◌, []};
    ghost use Rattle.pict_web.specs.Held.{BundleState};

    ghost Value = { BundleState };

    ghost view = { λ s. record { pairs = s.shelf.pairs; misses = s.shelf.misses } };

    ghost invariant = { λ s. s.shelf.fails ≡ [] };
}

impl Bundle {
    ghost use Rattle.pict_web.specs.Held.{new_bundle};

    /// These texts; of two with one name the first counts.
    pub(crate) fn new(alloc: Global, entries: Vec<Entry>) -> Bundle
        ensures { result ≡ new_bundle (pairs_of entries.items) }
    {
        Bundle {
            shelf: MemoryShelf::new(entries, Vec::new(alloc)),
        }
    }
}

impl Shelf for Bundle {
    ghost use Rattle.std.specs.Prelude.{Some};
    ghost use Rattle.pict_outside.specs.Texts.{texts_of};

    ghost held = { λ s. Some (texts_of s.pairs) };

    ghost faults = { λ _. 0 };

    ghost misses = { λ s. s.misses };

    /// Never fails.
    fn fetch(&mut self, alloc: Global, name: &str, limit: u64) -> Result<Fetched, ShelfError> {
        self.shelf.fetch(alloc, name, limit)
    }
}

/// What a call writes: a sink with room for so many bytes, which fails only where it is full.
#[derive(Drop)]
pub(crate) struct Page {
    sink: MemorySink,
    room: u64,
}

impl Model for Page {
    ghost use Rattle.std.specs.Prelude.{◌≡◌, []};
    ghost use Rattle.pict_web.specs.Held.{PageState};

    ghost Value = { PageState };

    ghost view = { λ s. record { taken = s.sink.taken; room = s.room } };

    ghost invariant = { λ s. (s.sink.fails ≡ []) × (s.sink.capacity ≡ s.room) };
}

impl Page {
    ghost use Rattle.pict_web.specs.Held.{new_page};

    /// An empty page with room for so many bytes. The only error is want of memory, of which all is taken here.
    pub(crate) fn new(alloc: Global, room: u64) -> Result<Page, AllocError>
        ensures { IfOk result (λ page. page ≡ new_page room) }
    {
        Ok(Page {
            sink: MemorySink::new(alloc, room, Vec::new(alloc))?,
            room,
        })
    }

    /// Whether it has room for so many bytes, with those that it has taken.
    pub(crate) fn has_room(&self, room: u64) -> bool
        ensures { IsTrue result → self.now.room ≡ room }
    {
        self.room == room
    }

    /// The bytes that it has taken, lent.
    pub(crate) fn taken(&self) -> &[u8]
        ensures { result.now ≡ self.now.taken }
    {
        self.sink.taken()
    }
}

impl Sink for Page {
    ghost use Rattle.std.specs.Prelude.{Some};
    ghost use Rattle.pict_web.specs.Held.{page_faults};

    ghost taken = { λ s. Some s.taken };

    ghost faults = { page_faults };

    /// Fails only where the piece doesn't fit, and takes then as many bytes as fit.
    fn write(&mut self, bytes: &[u8]) -> Result<(), SinkFailed> {
        self.sink.write(bytes)
    }
}
