// Who has the turn, kept so that it costs two words to give it to a node, or to nobody.
ghost use Rattle.std.specs.Prelude.{◌≡◌};

use crate::turn::Turn;
use pict_desk::Kept;
use pict_syntax::Span;
use std::marker::Model;

// What kind of turn it is, and the number of the node that has it.
#[derive(Clone, Copy)]
enum Kind {
    // Nobody has it.
    Nobody,
    // The node with this number.
    Node(usize),
    // The node with this number, with the record that is kept beside.
    Wide(usize),
    // The output that is kept beside.
    Output,
}

/// Keeps who has the turn, whom alone contracts see. The record of a node of more than `NARROW_LIMIT` levels and an output stand beside: they
/// are written only where such a one gets the turn, and say nothing while another one has it.
#[derive(Drop)]
pub struct Holder {
    kind: Kind,
    pair: (u64, u64),
    kept: Kept,
}

impl Model for Holder {
    ghost use Rattle.pict_turns.specs.declared.turn.Turn.{Turn};

    ghost Value = { Turn };

    ghost use Rattle.pict_turns.specs.Holders.{holder_turn};

    ghost view = { λ h. holder_turn h.kind h.pair h.kept };
}

impl Holder {
    /// Nobody has the turn.
    pub fn new() -> Holder
        ensures { result ≡ Turn.Nobody }
    {
        Holder {
            kind: Kind::Nobody,
            pair: (0, 0),
            kept: Kept {
                to: (0, 0),
                message: (0, 0),
                at: Span {
                    text: 0,
                    start: 0,
                    end: 0,
                },
            },
        }
    }

    /// Who has the turn.
    #[inline(always)]
    pub fn get(&self) -> Turn
        ensures { result ≡ self.now }
    {
        match self.kind {
            Kind::Nobody => Turn::Nobody,
            Kind::Node(number) => Turn::Node(number),
            Kind::Wide(number) => Turn::Wide(number, self.pair),
            Kind::Output => Turn::Output(self.kept),
        }
    }

    /// This one has the turn.
    #[inline(always)]
    pub fn set(&mut self, turn: Turn)
        ensures { self.new ≡ turn }
    {
        match turn {
            Turn::Nobody => self.kind = Kind::Nobody,
            Turn::Node(number) => self.kind = Kind::Node(number),
            Turn::Wide(number, pair) => {
                self.kind = Kind::Wide(number);
                self.pair = pair;
            }
            Turn::Output(kept) => {
                self.kind = Kind::Output;
                self.kept = kept;
            }
        }
    }
}
