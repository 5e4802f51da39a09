// Rows of the table of steps.

ghost use Rattle.std.specs.Prelude.{◌≡◌, ℕ, option_map};
ghost use Rattle.pict_core.specs.Plain.{plain_core, plain_val};
ghost use Rattle.pict_core.specs.Configuration.{Configuration};
ghost use Rattle.pict_core.specs.Step.{Label};
ghost use Rattle.pict_core.specs.Table.{Row};
ghost use Rattle.pict_reference.specs.Plain.{plain_entry};
ghost use Rattle.pict_stepper.specs.Lines.{rule_text};
ghost use Rattle.pict_stepper.specs.Rules.{rule_of_row, rule_for, branch_rule, performing_rule, reader_rule, sending_rule, output_rule, receiving_rule};

use pict_core::{Core, CoreVal};
use pict_reference::Entry;
use pict_syntax::Prim;

/// A row of the table of steps.
#[derive(Clone, Copy, PartialEq, Eq, Debug)]
pub enum Rule {
    /// The inert process goes.
    Ends,
    /// Of two processes side by side the first goes on, and the second comes.
    Forks,
    /// A new channel is made.
    MakesChannel,
    /// A conditional goes on as its first branch.
    TakesFirst,
    /// A conditional goes on as its second branch.
    TakesSecond,
    /// A primitive prints, and nothing is left.
    PrimitiveEnds,
    /// A primitive answers on a channel.
    PrimitiveAnswers,
    /// A message waits at its channel.
    OutputParks,
    /// A message is received by a reader that serves once.
    OutputMeetsReader,
    /// A message is received by a reader that serves again and again.
    OutputMeetsServer,
    /// A reader waits at its channel.
    InputParks,
    /// A reader that serves once receives a message.
    ReaderMeetsMessage,
    /// A reader that serves again and again receives a message.
    ServerMeetsMessage,
}

impl Rule {
    /// The name of the row in the table.
    pub fn name(self) -> &'static str
        ensures text { result.now ≡ rule_text self }
    {
        match self {
            Rule::Ends => "ends",
            Rule::Forks => "forks",
            Rule::MakesChannel => "makes_channel",
            Rule::TakesFirst => "takes_first",
            Rule::TakesSecond => "takes_second",
            Rule::PrimitiveEnds => "primitive_ends",
            Rule::PrimitiveAnswers => "primitive_answers",
            Rule::OutputParks => "output_parks",
            Rule::OutputMeetsReader => "output_meets_reader",
            Rule::OutputMeetsServer => "output_meets_server",
            Rule::InputParks => "input_parks",
            Rule::ReaderMeetsMessage => "reader_meets_message",
            Rule::ServerMeetsMessage => "server_meets_message",
        }
    }
}

/// The only row by which the process may step with this partner, if its channel has one.
pub fn rule_of(process: &Core, partner: Option<&Entry>) -> Rule
    ensures { (C D : Configuration) (s : ℕ) (label : Label)
        (row : Row C s (option_map (λ e. plain_entry e.now) partner.entry) (plain_core process.now) D label) → result ≡ rule_of_row row }
{
    by_form(process, partner)
}

// The same by the forms of the process and of its partner.
fn by_form(process: &Core, partner: Option<&Entry>) -> Rule
    ensures { result ≡ rule_for (plain_core process.now) (option_map (λ e. plain_entry e.now) partner.entry) }
{
    match process {
        Core::Zero => Rule::Ends,
        Core::Par(_, _) => Rule::Forks,
        Core::New(_) => Rule::MakesChannel,
        Core::If { test, .. } => branch(test),
        Core::Out { chan, .. } => output(chan, partner),
        Core::In { replicated, .. } => receiving(*replicated, partner),
    }
}

// The row of a conditional.
fn branch(test: &CoreVal) -> Rule
    ensures { result ≡ branch_rule (plain_val test.now) }
{
    match test {
        CoreVal::Bool(b) => {
            if *b {
                Rule::TakesFirst
            } else {
                Rule::TakesSecond
            }
        }
        _ => Rule::TakesFirst,
    }
}

// The row of an output.
fn output(chan: &CoreVal, reader: Option<&Entry>) -> Rule
    ensures { result ≡ output_rule (plain_val chan.now) (option_map (λ e. plain_entry e.now) reader.entry) }
{
    match chan {
        CoreVal::Prim(primitive) => performing(*primitive),
        _ => sending(reader),
    }
}

// The row of an output to a primitive.
fn performing(primitive: Prim) -> Rule
    ensures { result ≡ performing_rule primitive }
{
    match primitive {
        Prim::Print | Prim::Printi => Rule::PrimitiveEnds,
        _ => Rule::PrimitiveAnswers,
    }
}

// The row of an output to a channel.
fn sending(reader: Option<&Entry>) -> Rule
    ensures { result ≡ sending_rule (option_map (λ e. plain_entry e.now) reader.entry) }
{
    match reader {
        None => Rule::OutputParks,
        Some(entry) => meeting(&entry.process),
    }
}

// The row of an output that meets a reader.
fn meeting(reader: &Core) -> Rule
    ensures { result ≡ reader_rule (plain_core reader.now) }
{
    match reader {
        Core::In { replicated, .. } => {
            if *replicated {
                Rule::OutputMeetsServer
            } else {
                Rule::OutputMeetsReader
            }
        }
        _ => Rule::OutputMeetsReader,
    }
}

// The row of an input.
fn receiving(replicated: bool, message: Option<&Entry>) -> Rule
    ensures { result ≡ receiving_rule replicated (option_map (λ e. plain_entry e.now) message.entry) }
{
    match message {
        None => Rule::InputParks,
        Some(_) => {
            if replicated {
                Rule::ServerMeetsMessage
            } else {
                Rule::ReaderMeetsMessage
            }
        }
    }
}
