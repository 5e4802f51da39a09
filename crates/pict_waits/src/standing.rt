// Which node of the code is the process at a stamp, after some steps.

use crate::nodes::size;
use pict_core::Core;
use pict_reference::{Entry, Label};
use pict_stepper::{Rule, Step};
use std::alloc::{AllocError, Global};
use std::collections::BTreeMap;

/// What made a channel: the node, and which of its channels this is, counted from 1.
#[derive(Clone, Copy, Debug)]
pub struct Made {
    pub node: usize,
    pub number: u64,
}

/// The nodes at the stamps, in the order of these; what made the channels, in the order of their numbers, and at which of them a
/// message was read.
#[derive(Drop)]
pub struct Standing {
    nodes: Vec<usize>,
    channels: Vec<Made>,
    counts: BTreeMap<usize, u64>,
    read: Vec<bool>,
}

/// How many nodes stand before that of the right part of a process, or of the branch that is taken where its test is false.
fn before_second(process: &Core) -> usize {
    match process {
        Core::Par(left, _) => size(left.core()).saturating_add(1),
        Core::If { yes, .. } => size(yes.core()).saturating_add(1),
        _ => 1,
    }
}

impl Standing {
    /// What stands after these steps of a run, of which the first node is the first process. The only error is want of memory.
    pub fn after(alloc: Global, steps: &[Step]) -> Result<Standing, AllocError> {
        let mut nodes = Vec::new(alloc);
        nodes.push(0)?;
        let mut standing = Standing {
            nodes,
            channels: Vec::new(alloc),
            counts: BTreeMap::new(alloc),
            read: Vec::new(alloc),
        };
        for step in steps {
            standing.follow(step)?;
        }
        Ok(standing)
    }

    /// The node at a stamp.
    pub fn at(&self, stamp: u64) -> Option<usize> {
        self.nodes.get(stamp as usize).copied()
    }

    /// What made a channel.
    pub fn made(&self, channel: u32) -> Option<Made> {
        self.channels.get(channel as usize).copied()
    }

    /// What made the channels, in the order of their numbers.
    pub fn channels(&self) -> &[Made] {
        &self.channels
    }

    /// How many channels a node made.
    pub fn count(&self, node: usize) -> u64 {
        self.counts.get(&node).copied().unwrap_or(0)
    }

    /// Whether a message was read at a channel.
    pub fn was_read(&self, channel: u32) -> bool {
        self.read.get(channel as usize).copied().unwrap_or(false)
    }

    /// A message is read at a channel.
    fn reads(&mut self, channel: u32) {
        if let Some(read) = self.read.get_mut(channel as usize) {
            *read = true;
        }
    }

    /// Puts a node at a stamp.
    fn put(&mut self, stamp: u64, node: usize) {
        if let Some(place) = self.nodes.get_mut(stamp as usize) {
            *place = node;
        }
    }

    /// Puts a node at the next stamp.
    fn add(&mut self, node: usize) -> Result<(), AllocError> {
        self.nodes.push(node)?;
        Ok(())
    }

    /// Adds a channel that a node made.
    fn make(&mut self, node: usize) -> Result<(), AllocError> {
        let number = self.count(node).saturating_add(1);
        let _ = self.counts.insert(node, number)?;
        self.channels.push(Made { node, number })?;
        self.read.push(false)?;
        Ok(())
    }

    /// Does what a step does.
    fn follow(&mut self, step: &Step) -> Result<(), AllocError> {
        if let Label::Comm(channel, _) = &step.label {
            self.reads(*channel);
        }
        let actor = step.actor.stamp;
        let Some(node) = self.at(actor) else {
            return Ok(());
        };
        let inner = node.saturating_add(1);
        let second = node.saturating_add(before_second(&step.actor.process));
        match step.rule {
            Rule::Ends | Rule::PrimitiveEnds | Rule::PrimitiveAnswers => {}
            Rule::Forks => {
                self.put(actor, inner);
                self.add(second)?;
            }
            Rule::MakesChannel => {
                self.make(node)?;
                self.put(actor, inner);
            }
            Rule::TakesFirst => self.put(actor, inner),
            Rule::TakesSecond => self.put(actor, second),
            Rule::OutputParks | Rule::InputParks => self.add(node)?,
            Rule::ReaderMeetsMessage | Rule::ServerMeetsMessage => self.add(inner)?,
            Rule::OutputMeetsReader | Rule::OutputMeetsServer => {
                self.receive(step.rule == Rule::OutputMeetsServer, &step.partner)?;
            }
        }
        Ok(())
    }

    /// Does what a message does that a parked reader receives: its body comes, and behind that the reader itself, if it serves
    /// again and again.
    fn receive(&mut self, again: bool, reader: &Option<Entry>) -> Result<(), AllocError> {
        if let Some(reader) = reader {
            if let Some(node) = self.at(reader.stamp) {
                self.add(node.saturating_add(1))?;
                if again {
                    self.add(node)?;
                }
            }
        }
        Ok(())
    }
}
