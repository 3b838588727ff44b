//! Worked documents, each with its result line, the order of its asks or the lineage of its outputs: they compute.
//!
//! Each stands in a file of `specs/` by its subject (`RowsOfIteration.antt`, `RowsOfFaults.antt`, `RowsOfFlows.antt`,
//! `RowsOfSize.antt`), in the words of `specs/Writing.antt`, over the local services (`specs/LocalGives.antt` of
//! `tv_local`). A wrong definition gives another line, which the check refuses.
ghost use Rattle.tv_model.specs.RowsOfFaults.{BouncesOneItem, CrossesEmptyListWithFault, CrossesListWithFault, FailsAfterRetries, FailsOver, PairsWithFault, PassesFaultOfList, RetriesUntilRight, TellsDepthOfValue, TellsErrorInValue, TellsNumberOfValues};
ghost use Rattle.tv_model.specs.RowsOfFlows.{AsksInsideFlows, ForwardOfCross, ForwardThroughFlow, GivesTheSameInEachOrder, HasNoSuchElement, JoinsGeneNames, LimitOfJobsLeavesOrder, LineageOfCross, LineageThroughFlow, LineageThroughSteps, OpensFlowForEachItem, RunsAfter, RunsByRank, StreamsToNextStep};
ghost use Rattle.tv_model.specs.RowsOfIteration.{CapitalsOfText, CrossesTwoLists, CrossesWithEmptyInnerList, CrossesWithEmptyOuterList, MergesTwoTexts, PairsToShorter, ReadsNumbersAsTexts, WalksEmptyList, WalksNestedLists, WrapsTextInList};
ghost use Rattle.tv_model.specs.RowsOfSize.{LengthOfTen, LineOfOne, TotalsOfTen, TotalsOfThree};

/// Texts, lists of lists and the empty list, walked by one port.
pub fn walks()
    ensures text { CapitalsOfText }
    ensures nested { WalksNestedLists }
    ensures empty { WalksEmptyList }
    ensures numbers { ReadsNumbersAsTexts }
{}

/// Two lists, each text with each or in pairs.
pub fn crosses_and_pairs()
    ensures crossed { CrossesTwoLists }
    ensures empty_inner { CrossesWithEmptyInnerList }
    ensures empty_outer { CrossesWithEmptyOuterList }
    ensures paired { PairsToShorter }
{}

/// Values that are made deeper for a port, by wrapping or merging.
pub fn deeper_values()
    ensures wrapped { WrapsTextInList }
    ensures merged { MergesTwoTexts }
{}

/// Retries and failover.
pub fn tries()
    ensures retried { RetriesUntilRight }
    ensures spent { FailsAfterRetries }
    ensures failed_over { FailsOver }
{}

/// Why an outcome isn't right.
pub fn wrong_outcomes()
    ensures number { TellsNumberOfValues }
    ensures depth { TellsDepthOfValue }
    ensures error { TellsErrorInValue }
{}

/// Faults on their way: bounced jobs, and faults in the place of lists.
pub fn faults()
    ensures bounced { BouncesOneItem }
    ensures passed { PassesFaultOfList }
    ensures crossed_empty { CrossesEmptyListWithFault }
    ensures crossed { CrossesListWithFault }
    ensures paired { PairsWithFault }
{}

/// What one worker asks first.
pub fn orders()
    ensures streamed { StreamsToNextStep }
    ensures limit { LimitOfJobsLeavesOrder }
    ensures after { RunsAfter }
    ensures ranked { RunsByRank }
    ensures same { GivesTheSameInEachOrder }
{}

/// Several steps, and flows in flows.
pub fn flows()
    ensures genes { JoinsGeneNames }
    ensures opened { OpensFlowForEachItem }
    ensures inside { AsksInsideFlows }
{}

/// Where an output element came from, and where an input element went.
pub fn lineages()
    ensures crossed { LineageOfCross }
    ensures none { HasNoSuchElement }
    ensures forward { ForwardOfCross }
    ensures opened { LineageThroughFlow }
    ensures opened_forward { ForwardThroughFlow }
    ensures steps { LineageThroughSteps }
{}

/// A document that grows with a number.
pub fn sizes()
    ensures one { LineOfOne }
    ensures three { TotalsOfThree }
    ensures ten { TotalsOfTen }
    ensures length { LengthOfTen }
{}
