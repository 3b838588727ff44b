//! What the check complains of, and where.
use std::alloc::{AllocError, AllocFailed};
use tv_value::Name;

/// What is wrong with a document whose form is right.
#[derive(Clone, Copy, Debug, PartialEq, Eq, Drop)]
pub enum CheckKind {
    /// A flow input, step, step output or step to run after that isn't there.
    NoSuchPort = 1,
    /// A service that isn't known.
    NoSuchService = 2,
    /// A flow that isn't there.
    NoSuchFlow = 3,
    /// A flow that nests in itself.
    FlowCycle = 4,
    /// A step that comes before itself.
    LinkCycle = 5,
    /// A strategy whose leaves aren't the step's input ports, each once.
    StrategyPorts = 6,
    /// A dot with children of different depths.
    DotDepths = 7,
    /// A merge of links of different depths.
    MergeDepths = 8,
    /// A nested flow whose ports aren't the step's.
    NestedPorts = 9,
    /// A depth above 32, or flows nested more than 8 deep.
    TooDeep = 10,
    /// An input of the main flow without a value.
    InputMissing = 11,
    /// A value for no input of the main flow.
    InputUnknown = 12,
    /// A value that hasn't its input's depth.
    InputDepth = 13,
    /// A nested flow in a step with a loop.
    LoopNested = 14,
    /// An input and an output of one name in a step with a loop, of different depths.
    LoopDepths = 15,
    /// A prefix node of which the right depth is less than the left.
    PrefixDepths = 16,
}

/// A place in a document. Positions count from 0.
#[derive(Debug, Drop)]
pub enum Spot {
    /// The name of the main flow.
    Main,
    /// A flow.
    Flow {
        flow: Name,
    },
    /// A step.
    Step {
        flow: Name,
        step: Name,
    },
    /// An input port of a step.
    Input {
        flow: Name,
        step: Name,
        port: Name,
    },
    /// An output port of a step.
    Output {
        flow: Name,
        step: Name,
        port: Name,
    },
    /// An activity of a step.
    Activity {
        flow: Name,
        step: Name,
        position: u32,
    },
    /// A step that a step runs after.
    After {
        flow: Name,
        step: Name,
        position: u32,
    },
    /// The loop of a step.
    Loop {
        flow: Name,
        step: Name,
    },
    /// An output of a flow.
    FlowOutput {
        flow: Name,
        port: Name,
    },
    /// A value given to the main flow.
    Given {
        port: Name,
    },
}

/// The first thing that the check complains of.
#[derive(Debug, Drop)]
pub struct CheckFault {
    /// What is wrong.
    pub kind: CheckKind,
    /// Where it was met.
    pub spot: Spot,
    /// The first of two numbers: the first depth of a dot, prefix or merge, a loop's input's, a depth or nesting above its
    /// limit, the declared depth of an input. 0 where the kind has none.
    pub first: u32,
    /// The second: the other depth, the limit, or the value's least depth. 0 where the kind has none.
    pub second: u32,
}

/// Why a document wasn't accepted.
#[derive(Debug, Drop)]
pub enum CheckRefused {
    /// The check's first complaint.
    Check(CheckFault),
    /// Want of memory.
    NoMemory,
}

impl From<tv_value::NoMemory> for CheckRefused {
    ghost use Rattle.std.specs.Prelude.{◌≡◌};
    ghost use Rattle.tv_naming.specs.declared.faults.CheckRefused.TheVariants.{NoMemory};

    ghost from_gives = { λ _ f. f ≡ NoMemory };

    fn from(_error: tv_value::NoMemory) -> CheckRefused {
        CheckRefused::NoMemory
    }
}

impl From<AllocError> for CheckRefused {
    ghost use Rattle.std.specs.Prelude.{◌≡◌};
    ghost use Rattle.tv_naming.specs.declared.faults.CheckRefused.TheVariants.{NoMemory};

    ghost from_gives = { λ _ f. f ≡ NoMemory };

    fn from(_error: AllocError) -> CheckRefused {
        CheckRefused::NoMemory
    }
}

impl<T: Drop> From<AllocFailed<T>> for CheckRefused {
    ghost use Rattle.std.specs.Prelude.{◌≡◌};
    ghost use Rattle.tv_naming.specs.declared.faults.CheckRefused.TheVariants.{NoMemory};

    ghost from_gives = { λ _ f. f ≡ NoMemory };

    fn from(_failed: AllocFailed<T>) -> CheckRefused {
        CheckRefused::NoMemory
    }
}
