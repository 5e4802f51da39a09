// A configuration, kept as its definition writes it.

ghost use Rattle.std.specs.Prelude.{◌≡◌, ◌+◌, ◌<◌, ◌≤◌, ◌^◌, [], ◌∷◌, ◌↔◌, IsTrue, IfOk, OnOk, map, option_map};
ghost use Rattle.pict_core.specs.Plain.{plain_core, plain_val, plain_pat, core_of};
ghost use Rattle.pict_core.specs.Term.{Chan, Out, In};
ghost use Rattle.pict_core.specs.Primitives.{effect_of};
ghost use Rattle.pict_core.specs.Substitution.{substitute as substitute_plain};
ghost use Rattle.pict_core.specs.Matching.{match_value};
ghost use Rattle.pict_prim.specs.ValueDone.{effect_value_done, PrintsText};
ghost use Rattle.pict_core.specs.Configuration.{IsConfiguration, opening, Ready, Parked};
ghost use Rattle.pict_core.specs.Step.{next as next_plain, send as send_plain, receive as receive_plain, choose as choose_plain, perform as perform_plain, leave as leave_plain, printing, Steps as StepsTo, Quiet as QuietLabel, gone as gone_plain, kept as kept_plain, added as added_plain, with_channel, served as served_plain, took as took_plain, meet_reader as meet_plain_reader, meet_message as meet_plain_message, is_ready, least, is_parked_reader, is_parked_message};
ghost use Rattle.pict_reference.specs.Plain.{configuration_of, acts_in, mark_of, plain_entry, IsOutcome, GivesOutcome, IsCopyOf};

use crate::entry::{Entry, oldest_message, oldest_reader, oldest_ready, with_process};
use crate::outcome::{Label, StepOutcome};
use pict_core::{Core, CorePat, CoreVal, Part, match_value, substitute};
use pict_prim::{ValueDone, attempt_on_value, printed_bytes};
use pict_syntax::{Prim, Span};
use std::alloc::{AllocError, Global};

/// A configuration: a number of channels, a next stamp, and processes by rising stamps.
///
/// Each step goes over all entries and copies the acting process, so it is slow. After want of memory the configuration
/// is to be dropped.
#[derive(Drop)]
pub struct Reference {
    channels: u32,
    next_stamp: u64,
    entries: Vec<Entry>,
    alloc: Global,
}

impl Reference {
    /// The opening configuration of the process. The only error is want of memory.
    pub fn open(alloc: Global, process: Core) -> Result<Reference, AllocError>
        ensures { IfOk result (λ r. configuration_of r ≡ opening (plain_core process)) }
    {
        let mut entries = Vec::new(alloc);
        entries.push(Entry {
            stamp: 0,
            ready: true,
            process,
        })?;
        Ok(Reference {
            channels: 0,
            next_stamp: 1,
            entries,
            alloc,
        })
    }

    // The process at the stamp ends.
    fn gone(&mut self, s: u64)
        ensures { configuration_of self.new ≡ gone_plain s (configuration_of self.old) }
    {
        self.entries.retain(|e| s != e.stamp);
    }

    // The process keeps the turn of the stamp.
    fn kept(&mut self, s: u64, process: &Core) -> Result<(), AllocError>
        ensures { OnOk result (configuration_of self.new ≡ kept_plain s (plain_core process.now) (configuration_of self.old)) }
    {
        self.entries = with_process(self.alloc, s, process, &self.entries)?;
        Ok(())
    }

    // The process gets the next stamp.
    fn added(&mut self, ready: bool, process: Core) -> Result<(), AllocError>
        requires { self.old.next_stamp + 1 < 2 ^ 64 }
        ensures { OnOk result (configuration_of self.new ≡ added_plain (mark_of ready) (plain_core process) (configuration_of self.old)) }
    {
        self.entries.push(Entry {
            stamp: self.next_stamp,
            ready,
            process,
        })?;
        self.next_stamp += 1;
        Ok(())
    }

    // The process at the stamp parks as this one.
    fn park(&mut self, s: u64, process: Core) -> Result<StepOutcome, AllocError>
        requires { self.old.next_stamp + 2 < 2 ^ 64 }
        ensures { GivesOutcome result (StepsTo (added_plain Parked (plain_core process) (gone_plain s (configuration_of self.old))) QuietLabel)
            (configuration_of self.old) (configuration_of self.new) }
    {
        self.gone(s);
        self.added(false, process)?;
        Ok(StepOutcome::Steps(Label::Quiet))
    }

    // The part keeps the turn of the stamp.
    fn keep_turn(&mut self, s: u64, part: Part) -> Result<StepOutcome, AllocError>
        ensures { GivesOutcome result (StepsTo (kept_plain s (plain_core (core_of part)) (configuration_of self.old)) QuietLabel)
            (configuration_of self.old) (configuration_of self.new) }
    {
        self.kept(s, part.core())?;
        Ok(StepOutcome::Steps(Label::Quiet))
    }

    fn split(&mut self, s: u64, left: Part, right: Part) -> Result<StepOutcome, AllocError>
        requires { self.old.next_stamp + 2 < 2 ^ 64 }
        ensures { GivesOutcome result (StepsTo
            (added_plain Ready (plain_core (core_of right)) (kept_plain s (plain_core (core_of left)) (configuration_of self.old))) QuietLabel)
            (configuration_of self.old) (configuration_of self.new) }
    {
        self.kept(s, left.core())?;
        self.added(true, right.into_core())?;
        Ok(StepOutcome::Steps(Label::Quiet))
    }

    fn make_channel(&mut self, s: u64, body: Part) -> Result<StepOutcome, AllocError>
        requires { self.old.channels + 1 < 2 ^ 32 }
        ensures { GivesOutcome result (StepsTo
            (kept_plain s (substitute_plain 0 (Chan self.old.channels ∷ []) (plain_core (core_of body))) (with_channel (configuration_of self.old))) QuietLabel)
            (configuration_of self.old) (configuration_of self.new) }
    {
        let process = substitute(self.alloc, body.core(), &[CoreVal::Chan(self.channels)])?;
        self.kept(s, &process)?;
        self.channels += 1;
        Ok(StepOutcome::Steps(Label::Quiet))
    }

    fn choose(
        &mut self,
        s: u64,
        test: CoreVal,
        yes: Part,
        no: Part,
    ) -> Result<StepOutcome, AllocError>
        ensures { GivesOutcome result (choose_plain (plain_val test)
            (StepsTo (kept_plain s (plain_core (core_of yes)) (configuration_of self.old)) QuietLabel)
            (StepsTo (kept_plain s (plain_core (core_of no)) (configuration_of self.old)) QuietLabel))
            (configuration_of self.old) (configuration_of self.new) }
    {
        match test {
            CoreVal::Bool(true) => self.keep_turn(s, yes),
            CoreVal::Bool(false) => self.keep_turn(s, no),
            _ => Ok(StepOutcome::Wrong),
        }
    }

    // What a primitive leaves, for the output at the stamp.
    fn leave(&mut self, s: u64, done: ValueDone, at: Span) -> Result<StepOutcome, AllocError>
        requires { PrintsText done }
        ensures { GivesOutcome result (leave_plain (configuration_of self.old) s at (printing (effect_value_done done).printed) (effect_value_done done).leaves)
            (configuration_of self.old) (configuration_of self.new) }
    {
        match done {
            ValueDone::Printed(printed) => {
                let bytes = printed_bytes(self.alloc, printed)?;
                self.gone(s);
                Ok(StepOutcome::Steps(Label::Print(bytes)))
            }
            ValueDone::Answer(chan, message) => {
                self.kept(s, &Core::Out { chan, message, at })?;
                Ok(StepOutcome::Steps(Label::Quiet))
            }
            ValueDone::PrintedAnswer(printed, chan, message) => {
                let bytes = printed_bytes(self.alloc, printed)?;
                self.kept(s, &Core::Out { chan, message, at })?;
                Ok(StepOutcome::Steps(Label::Print(bytes)))
            }
            ValueDone::ZeroDivisor => Ok(StepOutcome::Traps(at)),
        }
    }

    fn perform(
        &mut self,
        s: u64,
        primitive: Prim,
        message: &CoreVal,
        at: Span,
    ) -> Result<StepOutcome, AllocError>
        ensures { GivesOutcome result (perform_plain (configuration_of self.old) s at (effect_of primitive (plain_val message.now)))
            (configuration_of self.old) (configuration_of self.new) }
    {
        match attempt_on_value(self.alloc, primitive, message)? {
            None => Ok(StepOutcome::Wrong),
            Some(done) => self.leave(s, done, at),
        }
    }

    // The oldest parked reader of the channel.
    fn reader(&self, c: u32) -> Result<Option<(u64, Core)>, AllocError>
        ensures { IsCopyOf result (least (is_parked_reader c) (configuration_of self.now).entries) }
    {
        match oldest_reader(c, &self.entries) {
            None => Ok(None),
            Some(entry) => Ok(Some((entry.stamp, entry.process.copy(self.alloc)?))),
        }
    }

    // The oldest message that is parked at the channel.
    fn message(&self, c: u32) -> Result<Option<(u64, Core)>, AllocError>
        ensures { IsCopyOf result (least (is_parked_message c) (configuration_of self.now).entries) }
    {
        match oldest_message(c, &self.entries) {
            None => Ok(None),
            Some(entry) => Ok(Some((entry.stamp, entry.process.copy(self.alloc)?))),
        }
    }

    // The oldest ready process.
    fn actor(&self) -> Result<Option<(u64, Core)>, AllocError>
        ensures { IsCopyOf result (least is_ready (configuration_of self.now).entries) }
    {
        match oldest_ready(&self.entries) {
            None => Ok(None),
            Some(entry) => Ok(Some((entry.stamp, entry.process.copy(self.alloc)?))),
        }
    }

    // A plain reader that served is gone; a replicated one gets the next stamp.
    fn served(&mut self, replicated: bool, reader: Core) -> Result<(), AllocError>
        requires { self.old.next_stamp + 1 < 2 ^ 64 }
        ensures { OnOk result (configuration_of self.new ≡ served_plain replicated (plain_core reader) (configuration_of self.old)) }
    {
        if replicated {
            self.added(false, reader)
        } else {
            Ok(())
        }
    }

    // A plain reader that received ends; a replicated one keeps the turn.
    fn took(&mut self, replicated: bool, s: u64)
        ensures { configuration_of self.new ≡ took_plain replicated s (configuration_of self.old) }
    {
        if !replicated {
            self.gone(s);
        }
    }

    // The message is served by the reader at stamp r.
    fn serve(
        &mut self,
        s: u64,
        r: u64,
        body: Core,
        replicated: bool,
        reader: Core,
    ) -> Result<(), AllocError>
        requires { self.old.next_stamp + 2 < 2 ^ 64 }
        ensures { OnOk result (configuration_of self.new ≡ served_plain replicated (plain_core reader)
            (added_plain Ready (plain_core body) (gone_plain r (gone_plain s (configuration_of self.old))))) }
    {
        self.gone(s);
        self.gone(r);
        self.added(true, body)?;
        self.served(replicated, reader)
    }

    // The reader takes the message at stamp r.
    fn take(&mut self, s: u64, r: u64, body: Core, replicated: bool) -> Result<(), AllocError>
        requires { self.old.next_stamp + 2 < 2 ^ 64 }
        ensures { OnOk result (configuration_of self.new ≡ added_plain Ready (plain_core body)
            (gone_plain r (took_plain replicated s (configuration_of self.old)))) }
    {
        self.took(replicated, s);
        self.gone(r);
        self.added(true, body)
    }

    fn meet_reader(
        &mut self,
        s: u64,
        c: u32,
        message: CoreVal,
        r: u64,
        reader: Core,
    ) -> Result<StepOutcome, AllocError>
        requires { self.old.next_stamp + 2 < 2 ^ 64 }
        ensures { GivesOutcome result (meet_plain_reader (configuration_of self.old) s c (plain_val message) r (plain_core reader))
            (configuration_of self.old) (configuration_of self.new) }
    {
        match reader {
            Core::In {
                chan,
                replicated,
                pattern,
                body,
            } => match self.body_of(&pattern, &message, &body)? {
                None => Ok(StepOutcome::Wrong),
                Some(process) => {
                    let again = Core::In {
                        chan,
                        replicated,
                        pattern,
                        body,
                    };
                    self.serve(s, r, process, replicated, again)?;
                    Ok(StepOutcome::Steps(Label::Comm(c, message)))
                }
            },
            _ => Ok(StepOutcome::Wrong),
        }
    }

    fn meet_message(
        &mut self,
        s: u64,
        c: u32,
        replicated: bool,
        pattern: &CorePat,
        body: &Part,
        r: u64,
        sender: Core,
    ) -> Result<StepOutcome, AllocError>
        requires { self.old.next_stamp + 2 < 2 ^ 64 }
        ensures { GivesOutcome result (meet_plain_message (configuration_of self.old) s c
            replicated (plain_pat pattern.now) (plain_core (core_of body.now)) r (plain_core sender))
            (configuration_of self.old) (configuration_of self.new) }
    {
        match sender {
            Core::Out {
                chan: _chan,
                message,
                at: _at,
            } => match self.body_of(pattern, &message, body)? {
                None => Ok(StepOutcome::Wrong),
                Some(process) => {
                    self.take(s, r, process, replicated)?;
                    Ok(StepOutcome::Steps(Label::Comm(c, message)))
                }
            },
            _ => Ok(StepOutcome::Wrong),
        }
    }

    // The body with the parts of the message; nothing where it doesn't fit.
    fn body_of(
        &self,
        pattern: &CorePat,
        message: &CoreVal,
        body: &Part,
    ) -> Result<Option<Core>, AllocError>
        ensures { IfOk result (λ found. option_map plain_core found
            ≡ option_map (λ bound. substitute_plain 0 bound (plain_core (core_of body.now))) (match_value (plain_pat pattern.now) (plain_val message.now))) }
    {
        match match_value(self.alloc, pattern, message)? {
            None => Ok(None),
            Some(bound) => Ok(Some(substitute(self.alloc, body.core(), &bound)?)),
        }
    }

    fn send_on(
        &mut self,
        s: u64,
        c: u32,
        message: CoreVal,
        at: Span,
    ) -> Result<StepOutcome, AllocError>
        requires { self.old.next_stamp + 2 < 2 ^ 64 }
        ensures { GivesOutcome result (send_plain (configuration_of self.old) s
            (least (is_parked_reader c) (configuration_of self.old).entries) (Chan c) (plain_val message) at)
            (configuration_of self.old) (configuration_of self.new) }
    {
        match self.reader(c)? {
            None => self.park(
                s,
                Core::Out {
                    chan: CoreVal::Chan(c),
                    message,
                    at,
                },
            ),
            Some((r, reader)) => self.meet_reader(s, c, message, r, reader),
        }
    }

    fn send(
        &mut self,
        s: u64,
        chan: CoreVal,
        message: CoreVal,
        at: Span,
    ) -> Result<StepOutcome, AllocError>
        requires { self.old.next_stamp + 2 < 2 ^ 64 }
        ensures { GivesOutcome result (acts_in (configuration_of self.old) s (Out (plain_val chan) (plain_val message) at))
            (configuration_of self.old) (configuration_of self.new) }
    {
        match chan {
            CoreVal::Chan(c) => self.send_on(s, c, message, at),
            CoreVal::Prim(primitive) => self.perform(s, primitive, &message, at),
            _ => Ok(StepOutcome::Wrong),
        }
    }

    fn receive_on(
        &mut self,
        s: u64,
        c: u32,
        replicated: bool,
        pattern: CorePat,
        body: Part,
    ) -> Result<StepOutcome, AllocError>
        requires { self.old.next_stamp + 2 < 2 ^ 64 }
        ensures { GivesOutcome result (receive_plain (configuration_of self.old) s
            (least (is_parked_message c) (configuration_of self.old).entries) (Chan c) replicated (plain_pat pattern) (plain_core (core_of body)))
            (configuration_of self.old) (configuration_of self.new) }
    {
        match self.message(c)? {
            None => self.park(
                s,
                Core::In {
                    chan: CoreVal::Chan(c),
                    replicated,
                    pattern,
                    body,
                },
            ),
            Some((r, sender)) => self.meet_message(s, c, replicated, &pattern, &body, r, sender),
        }
    }

    fn receive(
        &mut self,
        s: u64,
        chan: CoreVal,
        replicated: bool,
        pattern: CorePat,
        body: Part,
    ) -> Result<StepOutcome, AllocError>
        requires { self.old.next_stamp + 2 < 2 ^ 64 }
        ensures { GivesOutcome result (acts_in (configuration_of self.old) s (In (plain_val chan) replicated (plain_pat pattern) (plain_core (core_of body))))
            (configuration_of self.old) (configuration_of self.new) }
    {
        match chan {
            CoreVal::Chan(c) => self.receive_on(s, c, replicated, pattern, body),
            _ => Ok(StepOutcome::Wrong),
        }
    }

    // The process at the stamp acts, with its oldest partner.
    fn act(&mut self, s: u64, process: Core) -> Result<StepOutcome, AllocError>
        requires stamps { self.old.next_stamp + 2 < 2 ^ 64 }
        requires channels { self.old.channels + 1 < 2 ^ 32 }
        ensures { GivesOutcome result (acts_in (configuration_of self.old) s (plain_core process))
            (configuration_of self.old) (configuration_of self.new) }
    {
        match process {
            Core::Zero => {
                self.gone(s);
                Ok(StepOutcome::Steps(Label::Quiet))
            }
            Core::Par(left, right) => self.split(s, left, right),
            Core::New(body) => self.make_channel(s, body),
            Core::If { test, yes, no } => self.choose(s, test, yes, no),
            Core::Out { chan, message, at } => self.send(s, chan, message, at),
            Core::In {
                chan,
                replicated,
                pattern,
                body,
            } => self.receive(s, chan, replicated, pattern, body),
        }
    }

    /// The processes, by rising stamps.
    pub fn entries(&self) -> &[Entry]
        ensures { map plain_entry result.now ≡ (configuration_of self.now).entries }
    {
        &self.entries
    }

    /// The stamp that is given next. Takes no memory.
    pub fn next_stamp(&self) -> u64
        ensures { result ≡ (configuration_of self.now).next_stamp }
    {
        self.next_stamp
    }

    /// Whether there are numbers left for one more channel and two more stamps.
    pub fn has_room(&self) -> bool
        ensures { IsTrue result ↔ (((configuration_of self.now).channels + 1 < 2 ^ 32) × ((configuration_of self.now).next_stamp + 2 < 2 ^ 64)) }
    {
        self.channels < u32::MAX && self.next_stamp < u64::MAX - 1
    }

    /// The oldest-first step. Where it traps or is wrong, or nothing is ready, the configuration stays as it is. The only
    /// error is want of memory.
    pub fn next(&mut self) -> Result<StepOutcome, AllocError>
        requires { ((configuration_of self.old).channels + 1 < 2 ^ 32) × ((configuration_of self.old).next_stamp + 2 < 2 ^ 64) }
        ensures { IfOk result (λ made. IsConfiguration (configuration_of self.old)
            → IsOutcome made (next_plain (configuration_of self.old)) (configuration_of self.old) (configuration_of self.new)) }
    {
        match self.actor()? {
            None => Ok(StepOutcome::Finished),
            Some((s, process)) => self.act(s, process),
        }
    }
}
