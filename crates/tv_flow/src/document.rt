//! Documents as they were read.
ghost use Rattle.std.specs.Prelude.{◌≡◌, true};
ghost use Rattle.tv_flow.specs.Formed.{is_formed};
ghost use Rattle.tv_flow.specs.Views.{document_of};

use tv_value::{Depths, Name, Names, Sequence, Text, Tree, Value};

/// A document: its flows, the one that is run, and the values given for that one's inputs.
///
/// All in it has the kinds, ranges and numbers of entries that the document form states, but for the number of
/// `inputs`. Lists of names with things are in byte order of the names, each once.
#[derive(Drop)]
pub struct Document {
    /// The number of the document form: 1, or 2 where steps may have loops and strategies prefix nodes.
    pub format: u32,
    /// The flow that is run.
    pub main: Name,
    /// 1 to 256 flows.
    pub flows: Flows,
    /// The values given.
    pub inputs: Inputs,
    pub ghost formed: { is_formed (document_of format main flows inputs) ≡ true },
}

/// Names with values.
pub type Inputs = Sequence<(Name, Value)>;

/// Names with flows.
pub type Flows = Sequence<(Name, Flow)>;

/// Names with steps.
pub type Steps = Sequence<(Name, Step)>;

/// Names of input ports with what they take.
pub type StepInputs = Sequence<(Name, StepInput)>;

/// Names of a flow's outputs with what feeds them.
pub type FlowOutputs = Sequence<(Name, Feed)>;

/// Links in the order in which they are merged.
pub type Links = Sequence<Link>;

/// Activities in the order in which they are tried.
pub type Activities = Sequence<Activity>;

/// A flow.
#[derive(Drop)]
pub struct Flow {
    /// At most 16 inputs with their depths.
    pub inputs: Depths,
    /// At most 1,000 steps.
    pub steps: Steps,
    /// At most 16 outputs.
    pub outputs: FlowOutputs,
}

/// A step.
#[derive(Drop)]
pub struct Step {
    /// At most 16 input ports.
    pub inputs: StepInputs,
    /// At most 16 output ports with their depths.
    pub outputs: Depths,
    /// How the input ports combine; with `None` as a cross of all of them in byte order.
    pub strategy: Option<Tree>,
    /// 1 to 8 activities.
    pub activities: Activities,
    /// How often an ask is repeated, 0 to 100.
    pub retries: u32,
    /// How many jobs may run at once, 1 to 64.
    pub jobs: u32,
    /// The steps that it runs after, at most 16.
    pub after: Names,
    /// How each job goes round; with `None` it goes once. In format 2 alone.
    pub repeat: Option<Repeat>,
}

/// A loop: a job goes round until a service says so.
#[derive(Drop)]
pub struct Repeat {
    /// The service that is asked after each round.
    pub service: Name,
    /// The text that ends the loop.
    pub until: Text,
    /// The greatest number of rounds, 1 to 100.
    pub most: u32,
}

/// An input port of a step.
#[derive(Drop)]
pub struct StepInput {
    /// The depth of the values that it takes, 0 to 32.
    pub depth: u32,
    /// Where they come from.
    pub from: Feed,
}

/// What an input port of a step or an output of a flow is fed with.
#[derive(Drop)]
pub enum Feed {
    /// An input of the flow.
    Input(Name),
    /// An output of a step: the step, then its output.
    Output(Name, Name),
    /// 1 to 16 links, whose values make a list.
    Merge(Links),
    /// A value.
    Constant(Value),
}

/// A part of a merge.
#[derive(Drop)]
pub enum Link {
    /// An input of the flow.
    Input(Name),
    /// An output of a step: the step, then its output.
    Output(Name, Name),
}

/// What a step does for a job.
#[derive(Drop)]
pub enum Activity {
    /// It asks the service of that name.
    Service(Name),
    /// It opens the flow of that name.
    Nested(Name),
}
