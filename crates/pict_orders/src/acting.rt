// What a process does in its step, with a partner that is told.

ghost use Rattle.std.specs.Prelude.{◌≡◌, ◌+◌, ◌<◌, ◌^◌, [], ◌∷◌, IfOk, OnOk, option_map};
ghost use Rattle.pict_syntax.specs.declared.span.Span.{Span as PlainSpan};
ghost use Rattle.pict_core.specs.Plain.{plain_core, plain_val, plain_pat, core_of};
ghost use Rattle.pict_core.specs.Term.{Chan, Out, In};
ghost use Rattle.pict_core.specs.Primitives.{effect_of};
ghost use Rattle.pict_core.specs.Substitution.{substitute as substitute_plain};
ghost use Rattle.pict_core.specs.Matching.{match_value};
ghost use Rattle.pict_prim.specs.ValueDone.{effect_value_done, PrintsText};
ghost use Rattle.pict_core.specs.Configuration.{Ready, Parked};
ghost use Rattle.pict_core.specs.Step.{act as act_plain, send as send_plain, receive as receive_plain, choose as choose_plain, perform as perform_plain, leave as leave_plain, printing, Steps as StepsTo, Quiet as QuietLabel, gone as gone_plain, kept as kept_plain, added as added_plain, with_channel, served as served_plain, took as took_plain, meet_reader as meet_plain_reader, meet_message as meet_plain_message};
ghost use Rattle.pict_reference.specs.Plain.{GivesOutcome};
ghost use Rattle.pict_orders.specs.Plain.{configuration_of};
ghost use Rattle.pict_shared.specs.Plain.{plain_held};

use crate::state::State;
use pict_core::{Core, CorePat, CoreVal, Part, match_value, substitute};
use pict_prim::{ValueDone, attempt_on_value, printed_bytes};
use pict_reference::{Label, StepOutcome};
use pict_shared::{Held, Shaped};
use pict_syntax::{Prim, Span};
use std::alloc::AllocError;
use std::rc::Rc;

impl State {
    // The process at the stamp parks.
    fn park(&mut self, s: u64, own: &Rc<Shaped>) -> Result<StepOutcome, AllocError>
        requires { self.old.next_stamp + 2 < 2 ^ 64 }
        ensures { GivesOutcome result (StepsTo (added_plain Parked (plain_core own.now.value.core) (gone_plain s (configuration_of self.old))) QuietLabel)
            (configuration_of self.old) (configuration_of self.new) }
    {
        self.gone(s);
        self.added(false, own.clone()?)?;
        Ok(StepOutcome::Steps(Label::Quiet))
    }

    // The part keeps the turn of the stamp.
    fn keep_turn(&mut self, s: u64, part: &Part) -> Result<StepOutcome, AllocError>
        ensures { GivesOutcome result (StepsTo (kept_plain s (plain_core (core_of part.now)) (configuration_of self.old)) QuietLabel)
            (configuration_of self.old) (configuration_of self.new) }
    {
        self.kept(s, part.core().copy(self.alloc)?)?;
        Ok(StepOutcome::Steps(Label::Quiet))
    }

    fn split(&mut self, s: u64, left: &Part, right: &Part) -> Result<StepOutcome, AllocError>
        requires { self.old.next_stamp + 2 < 2 ^ 64 }
        ensures { GivesOutcome result (StepsTo
            (added_plain Ready (plain_core (core_of right.now))
            (kept_plain s (plain_core (core_of left.now)) (configuration_of self.old))) QuietLabel)
            (configuration_of self.old) (configuration_of self.new) }
    {
        self.kept(s, left.core().copy(self.alloc)?)?;
        self.added_new(right.core().copy(self.alloc)?)?;
        Ok(StepOutcome::Steps(Label::Quiet))
    }

    fn make_channel(&mut self, s: u64, body: &Part) -> Result<StepOutcome, AllocError>
        requires { self.old.channels + 1 < 2 ^ 32 }
        ensures { GivesOutcome result (StepsTo
            (kept_plain s (substitute_plain 0 (Chan self.old.channels ∷ []) (plain_core (core_of body.now)))
            (with_channel (configuration_of self.old))) QuietLabel)
            (configuration_of self.old) (configuration_of self.new) }
    {
        let process = substitute(self.alloc, body.core(), &[CoreVal::Chan(self.channels)])?;
        self.kept(s, process)?;
        self.channels += 1;
        Ok(StepOutcome::Steps(Label::Quiet))
    }

    fn choose(
        &mut self,
        s: u64,
        test: &CoreVal,
        yes: &Part,
        no: &Part,
    ) -> Result<StepOutcome, AllocError>
        ensures { GivesOutcome result (choose_plain (plain_val test.now)
            (StepsTo (kept_plain s (plain_core (core_of yes.now)) (configuration_of self.old)) QuietLabel)
            (StepsTo (kept_plain s (plain_core (core_of no.now)) (configuration_of self.old)) QuietLabel))
            (configuration_of self.old) (configuration_of self.new) }
    {
        match test {
            CoreVal::Bool(b) => {
                if *b {
                    self.keep_turn(s, yes)
                } else {
                    self.keep_turn(s, no)
                }
            }
            _ => Ok(StepOutcome::Wrong),
        }
    }

    // What a primitive leaves, for the output at the stamp.
    fn leave(&mut self, s: u64, done: ValueDone, at: Span) -> Result<StepOutcome, AllocError>
        requires { PrintsText done }
        ensures { GivesOutcome result
            (leave_plain (configuration_of self.old) s at (printing (effect_value_done done).printed) (effect_value_done done).leaves)
            (configuration_of self.old) (configuration_of self.new) }
    {
        match done {
            ValueDone::Printed(printed) => {
                let bytes = printed_bytes(self.alloc, printed)?;
                self.gone(s);
                Ok(StepOutcome::Steps(Label::Print(bytes)))
            }
            ValueDone::Answer(chan, message) => {
                self.kept(s, Core::Out { chan, message, at })?;
                Ok(StepOutcome::Steps(Label::Quiet))
            }
            ValueDone::PrintedAnswer(printed, chan, message) => {
                let bytes = printed_bytes(self.alloc, printed)?;
                self.kept(s, Core::Out { chan, message, at })?;
                Ok(StepOutcome::Steps(Label::Print(bytes)))
            }
            ValueDone::ZeroDivisor => Ok(StepOutcome::Traps(at)),
        }
    }

    fn perform(
        &mut self,
        s: u64,
        primitive: Prim,
        message: &CoreVal,
        at: Span,
    ) -> Result<StepOutcome, AllocError>
        ensures { GivesOutcome result (perform_plain (configuration_of self.old) s at (effect_of primitive (plain_val message.now)))
            (configuration_of self.old) (configuration_of self.new) }
    {
        match attempt_on_value(self.alloc, primitive, message)? {
            None => Ok(StepOutcome::Wrong),
            Some(done) => self.leave(s, done, at),
        }
    }

    // A plain reader that served is gone; a replicated one gets the next stamp.
    fn served(&mut self, replicated: bool, reader: Rc<Shaped>) -> Result<(), AllocError>
        requires { self.old.next_stamp + 1 < 2 ^ 64 }
        ensures { OnOk result (configuration_of self.new ≡ served_plain replicated (plain_core reader.value.core) (configuration_of self.old)) }
    {
        if replicated {
            self.added(false, reader)
        } else {
            Ok(())
        }
    }

    // A plain reader that received ends; a replicated one keeps the turn.
    fn took(&mut self, replicated: bool, s: u64)
        ensures { configuration_of self.new ≡ took_plain replicated s (configuration_of self.old) }
    {
        if !replicated {
            self.gone(s);
        }
    }

    // The message is served by the reader at stamp r.
    fn serve(
        &mut self,
        s: u64,
        r: u64,
        body: Core,
        replicated: bool,
        reader: Rc<Shaped>,
    ) -> Result<(), AllocError>
        requires { self.old.next_stamp + 2 < 2 ^ 64 }
        ensures { OnOk result (configuration_of self.new ≡ served_plain replicated (plain_core reader.value.core)
            (added_plain Ready (plain_core body) (gone_plain r (gone_plain s (configuration_of self.old))))) }
    {
        self.gone(s);
        self.gone(r);
        self.added_new(body)?;
        self.served(replicated, reader)
    }

    // The reader takes the message at stamp r.
    fn take(&mut self, s: u64, r: u64, body: Core, replicated: bool) -> Result<(), AllocError>
        requires { self.old.next_stamp + 2 < 2 ^ 64 }
        ensures { OnOk result (configuration_of self.new ≡ added_plain Ready (plain_core body)
            (gone_plain r (took_plain replicated s (configuration_of self.old)))) }
    {
        self.took(replicated, s);
        self.gone(r);
        self.added_new(body)
    }

    // The body with the parts of the message; nothing where it doesn't fit.
    fn body_of(
        &self,
        pattern: &CorePat,
        message: &CoreVal,
        body: &Part,
    ) -> Result<Option<Core>, AllocError>
        ensures { IfOk result (λ found. option_map plain_core found
            ≡ option_map (λ bound. substitute_plain 0 bound (plain_core (core_of body.now)))
            (match_value (plain_pat pattern.now) (plain_val message.now))) }
    {
        match match_value(self.alloc, pattern, message)? {
            None => Ok(None),
            Some(bound) => Ok(Some(substitute(self.alloc, body.core(), &bound)?)),
        }
    }

    fn meet_reader(
        &mut self,
        s: u64,
        c: u32,
        message: &CoreVal,
        r: u64,
        reader: &Rc<Shaped>,
    ) -> Result<StepOutcome, AllocError>
        requires { self.old.next_stamp + 2 < 2 ^ 64 }
        ensures { GivesOutcome result (meet_plain_reader (configuration_of self.old) s c (plain_val message.now) r (plain_core reader.now.value.core))
            (configuration_of self.old) (configuration_of self.new) }
    {
        match &reader.core {
            Core::In {
                replicated,
                pattern,
                body,
                ..
            } => match self.body_of(pattern, message, body)? {
                None => Ok(StepOutcome::Wrong),
                Some(process) => {
                    self.serve(s, r, process, *replicated, reader.clone()?)?;
                    Ok(StepOutcome::Steps(Label::Comm(c, message.copy(self.alloc)?)))
                }
            },
            _ => Ok(StepOutcome::Wrong),
        }
    }

    fn meet_message(
        &mut self,
        s: u64,
        c: u32,
        replicated: bool,
        pattern: &CorePat,
        body: &Part,
        r: u64,
        sender: &Rc<Shaped>,
    ) -> Result<StepOutcome, AllocError>
        requires { self.old.next_stamp + 2 < 2 ^ 64 }
        ensures { GivesOutcome result (meet_plain_message (configuration_of self.old) s c
            replicated (plain_pat pattern.now) (plain_core (core_of body.now)) r (plain_core sender.now.value.core))
            (configuration_of self.old) (configuration_of self.new) }
    {
        match &sender.core {
            Core::Out { message, .. } => match self.body_of(pattern, message, body)? {
                None => Ok(StepOutcome::Wrong),
                Some(process) => {
                    self.take(s, r, process, replicated)?;
                    Ok(StepOutcome::Steps(Label::Comm(c, message.copy(self.alloc)?)))
                }
            },
            _ => Ok(StepOutcome::Wrong),
        }
    }

    fn send_on(
        &mut self,
        s: u64,
        own: &Rc<Shaped>,
        c: u32,
        message: &CoreVal,
        partner: &Option<Held>,
    ) -> Result<StepOutcome, AllocError>
        requires { self.old.next_stamp + 2 < 2 ^ 64 }
        ensures { (at : PlainSpan) → plain_core own.now.value.core ≡ Out (Chan c) (plain_val message.now) at
            → GivesOutcome result (send_plain (configuration_of self.old) s (option_map plain_held partner.now) (Chan c) (plain_val message.now) at)
            (configuration_of self.old) (configuration_of self.new) }
    {
        match partner {
            None => self.park(s, own),
            Some(reader) => self.meet_reader(s, c, message, reader.stamp, &reader.process),
        }
    }

    fn send(
        &mut self,
        s: u64,
        own: &Rc<Shaped>,
        chan: &CoreVal,
        message: &CoreVal,
        at: Span,
        partner: &Option<Held>,
    ) -> Result<StepOutcome, AllocError>
        requires { self.old.next_stamp + 2 < 2 ^ 64 }
        ensures { plain_core own.now.value.core ≡ Out (plain_val chan.now) (plain_val message.now) at
            → GivesOutcome result (send_plain (configuration_of self.old) s (option_map plain_held partner.now)
            (plain_val chan.now) (plain_val message.now) at)
            (configuration_of self.old) (configuration_of self.new) }
    {
        match chan {
            CoreVal::Chan(c) => self.send_on(s, own, *c, message, partner),
            CoreVal::Prim(primitive) => self.perform(s, *primitive, message, at),
            _ => Ok(StepOutcome::Wrong),
        }
    }

    fn receive_on(
        &mut self,
        s: u64,
        own: &Rc<Shaped>,
        c: u32,
        replicated: bool,
        pattern: &CorePat,
        body: &Part,
        partner: &Option<Held>,
    ) -> Result<StepOutcome, AllocError>
        requires { self.old.next_stamp + 2 < 2 ^ 64 }
        ensures { plain_core own.now.value.core ≡ In (Chan c) replicated (plain_pat pattern.now) (plain_core (core_of body.now))
            → GivesOutcome result (receive_plain (configuration_of self.old) s (option_map plain_held partner.now)
            (Chan c) replicated (plain_pat pattern.now) (plain_core (core_of body.now)))
            (configuration_of self.old) (configuration_of self.new) }
    {
        match partner {
            None => self.park(s, own),
            Some(sender) => self.meet_message(
                s,
                c,
                replicated,
                pattern,
                body,
                sender.stamp,
                &sender.process,
            ),
        }
    }

    fn receive(
        &mut self,
        s: u64,
        own: &Rc<Shaped>,
        chan: &CoreVal,
        replicated: bool,
        pattern: &CorePat,
        body: &Part,
        partner: &Option<Held>,
    ) -> Result<StepOutcome, AllocError>
        requires { self.old.next_stamp + 2 < 2 ^ 64 }
        ensures { plain_core own.now.value.core ≡ In (plain_val chan.now) replicated (plain_pat pattern.now) (plain_core (core_of body.now))
            → GivesOutcome result (receive_plain (configuration_of self.old) s (option_map plain_held partner.now)
            (plain_val chan.now) replicated (plain_pat pattern.now) (plain_core (core_of body.now)))
            (configuration_of self.old) (configuration_of self.new) }
    {
        match chan {
            CoreVal::Chan(c) => self.receive_on(s, own, *c, replicated, pattern, body, partner),
            _ => Ok(StepOutcome::Wrong),
        }
    }

    // The process at the stamp acts, with this partner.
    pub(crate) fn act(
        &mut self,
        s: u64,
        own: &Rc<Shaped>,
        partner: &Option<Held>,
    ) -> Result<StepOutcome, AllocError>
        requires stamps { self.old.next_stamp + 2 < 2 ^ 64 }
        requires channels { self.old.channels + 1 < 2 ^ 32 }
        ensures { GivesOutcome result (act_plain (configuration_of self.old) s (option_map plain_held partner.now) (plain_core own.now.value.core))
            (configuration_of self.old) (configuration_of self.new) }
    {
        match &own.core {
            Core::Zero => {
                self.gone(s);
                Ok(StepOutcome::Steps(Label::Quiet))
            }
            Core::Par(left, right) => self.split(s, left, right),
            Core::New(body) => self.make_channel(s, body),
            Core::If { test, yes, no } => self.choose(s, test, yes, no),
            Core::Out { chan, message, at } => self.send(s, own, chan, message, *at, partner),
            Core::In {
                chan,
                replicated,
                pattern,
                body,
            } => self.receive(s, own, chan, *replicated, pattern, body, partner),
        }
    }
}
