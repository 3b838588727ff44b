//! What the definitions say of small documents: each is the clause of a function that does nothing, and computes.
ghost use Rattle.tv_check.specs.RankLaws.{AllAreRanked, NoneIsRankedOnCycles, NamesAreInside};
ghost use Rattle.tv_check.specs.Worked.{AcceptsCross, AcceptsNested, TellsNoMain, TellsLinksFirst, TellsStrategyPorts, TellsNamesFirst, TellsAfter, TellsFlowOutput};
ghost use Rattle.tv_check.specs.Worked.{TellsFlowCycle, TellsDeepNesting, TellsLinkCycle, TellsSelfLink};
ghost use Rattle.tv_check.specs.Worked.{TellsMergeDepths, TellsDeepMerge, TellsDotDepths, TellsPrefixDepths, TellsDeepOutput, TellsNestedPorts};
ghost use Rattle.tv_check.specs.Worked.{TellsLoopDepths, TellsCondition, TellsLoopNested};
ghost use Rattle.tv_check.specs.Worked.{TellsMissingFirst, TellsUnknownInput, TellsInputDepth};

/// Documents that are accepted.
pub fn accepted()
    ensures cross { AcceptsCross }
    ensures nested { AcceptsNested }
{}

/// Names that name nothing: the main flow, links, strategies, services, steps to run after, and flow outputs, in order.
pub fn names()
    ensures main { TellsNoMain }
    ensures links { TellsLinksFirst }
    ensures strategy { TellsStrategyPorts }
    ensures services { TellsNamesFirst }
    ensures after { TellsAfter }
    ensures outputs { TellsFlowOutput }
{}

/// Flows that nest in themselves or too deep, and steps that feed themselves.
pub fn cycles()
    ensures flows { TellsFlowCycle }
    ensures nesting { TellsDeepNesting }
    ensures steps { TellsLinkCycle }
    ensures itself { TellsSelfLink }
{}

/// Depths that don't fit.
pub fn depths()
    ensures merge { TellsMergeDepths }
    ensures deep_merge { TellsDeepMerge }
    ensures dot { TellsDotDepths }
    ensures prefix { TellsPrefixDepths }
    ensures deep_output { TellsDeepOutput }
    ensures nested { TellsNestedPorts }
{}

/// Loops: conditions that aren't known, nested flows beside them, and outputs that can't be inputs of the next round.
pub fn loops()
    ensures condition { TellsCondition }
    ensures nested { TellsLoopNested }
    ensures depths { TellsLoopDepths }
{}

/// The values that the main flow is given.
pub fn inputs()
    ensures missing { TellsMissingFirst }
    ensures unknown { TellsUnknownInput }
    ensures depth { TellsInputDepth }
{}

/// Where no name is complained of, every step has a rank exactly where none comes before itself.
pub fn ranks()
    ensures all { AllAreRanked }
    ensures none { NoneIsRankedOnCycles }
    ensures inside { NamesAreInside }
{}
