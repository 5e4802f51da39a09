// Why processes wait, and how many wait for one reason at one place of the text and one channel.

use crate::waiting::Kind;
use pict_places::Form;
use std::alloc::{AllocError, Global};
use std::collections::BTreeMap;

/// Why a process waits at a channel when nothing is ready any more.
#[derive(Clone, Copy, PartialEq, Eq, Debug)]
pub enum Why {
    /// It reads once, and no message has come.
    Reader,
    /// It waits for an answer that hasn't come.
    Answer,
    /// It is a message, and nobody has ever read at its channel.
    Unread,
    /// It is a message at a channel at which others were read: a state, or a lock that is free.
    State,
    /// It waits for further calls or messages.
    Server,
    /// The answer that it waited for has come.
    Answered,
}

/// Why a process of this kind, which comes from this form, waits at a channel at which messages have been read or not.
pub fn reason_of(kind: Kind, form: Form, read: bool) -> Why {
    match (kind, form, read) {
        (Kind::Message, _, true) => Why::State,
        (Kind::Message, _, false) => Why::Unread,
        (Kind::Reader, _, _) => Why::Reader,
        (Kind::Server, Form::Answer, true) => Why::Answered,
        (Kind::Server, Form::Answer, false) => Why::Answer,
        (Kind::Server, _, _) => Why::Server,
    }
}

/// A node of the code, and a channel at which processes that it stands for wait.
#[derive(Clone, Copy, PartialEq, Eq, PartialOrd, Ord, Debug)]
pub struct Spot {
    pub node: usize,
    pub channel: u32,
}

/// How many wait at each spot, by rising nodes and channels.
pub type Counted = BTreeMap<Spot, u64>;

/// Those who wait, by why.
#[derive(Drop)]
pub struct Sorted {
    pub readers: Counted,
    pub answers: Counted,
    pub unread: Counted,
    pub states: Counted,
    pub servers: Counted,
}

/// One more at a spot.
fn count(counted: &mut Counted, spot: Spot) -> Result<(), AllocError> {
    let others = counted.get(&spot).copied().unwrap_or(0);
    let _ = counted.insert(spot, others.saturating_add(1))?;
    Ok(())
}

impl Sorted {
    /// Nobody.
    pub fn new(alloc: Global) -> Sorted {
        Sorted {
            readers: BTreeMap::new(alloc),
            answers: BTreeMap::new(alloc),
            unread: BTreeMap::new(alloc),
            states: BTreeMap::new(alloc),
            servers: BTreeMap::new(alloc),
        }
    }

    /// One more who waits for this reason; calls of one place count as one, whatever the channels of their answers. The only error
    /// is want of memory.
    pub fn add(&mut self, why: Why, spot: Spot) -> Result<(), AllocError> {
        match why {
            Why::Reader => count(&mut self.readers, spot),
            Why::Answer => count(&mut self.answers, Spot { channel: 0, ..spot }),
            Why::Unread => count(&mut self.unread, spot),
            Why::State => count(&mut self.states, spot),
            Why::Server => count(&mut self.servers, spot),
            Why::Answered => Ok(()),
        }
    }

    /// Whether somebody waits who isn't a server, and isn't a message at a channel at which others were read.
    pub fn is_some_in_vain(&self) -> bool {
        !self.readers.is_empty() || !self.answers.is_empty() || !self.unread.is_empty()
    }
}
