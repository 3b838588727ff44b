//! Laws of the definitions, and the definitions computed on worked examples: each is the clause of a function that does nothing,
//! so a definition that comes to something else is refused.
ghost use Rattle.tv_top.specs.Worked.{RunsOneText, RunsChain, RunsFailure, RunsCross, RunsNestedFlow, RunsGenerated, ChecksCross, ChecksChain, LineageOfCross, LineageOfFailure, ForwardOfCross, TracesAttempts, TracesChain, TracesFailure, UpgradesOneText};
ghost use Rattle.tv_top.specs.Worked.{RefusesDepth, RefusesCircle, RefusesNoDocument, RefusesNoJson, RefusesNoCommand, RefusesElements, RefusesLoop};
ghost use Rattle.tv_top.specs.Worked.{AsksChain, AsksFailure, AsksAttempts, AsksForward, AsksGenerated, AsksLineage, AsksNoCheck};
ghost use Rattle.tv_top.specs.Worked.{TakesCommands, TakesNothingElse, TellsCodes, TellsLines};
ghost use Rattle.tv_top.specs.Asking.{OthersAreNotAsked, OthersAskNothing, RefusalsAskNothing};

/// What is printed for documents, byte by byte.
pub fn worked_texts()
    ensures one { RunsOneText }
    ensures chain { RunsChain }
    ensures failure { RunsFailure }
    ensures cross { RunsCross }
    ensures nested { RunsNestedFlow }
    ensures generated { RunsGenerated }
    ensures attempts { TracesAttempts }
    ensures chain_trace { TracesChain }
    ensures failure_trace { TracesFailure }
    ensures lineage { LineageOfCross }
    ensures failure_lineage { LineageOfFailure }
    ensures forward { ForwardOfCross }
    ensures depths { ChecksCross }
    ensures chain_depths { ChecksChain }
    ensures upgrade { UpgradesOneText }
{}

/// What is refused, with its line.
pub fn worked_refusals()
    ensures depth { RefusesDepth }
    ensures circle { RefusesCircle }
    ensures no_document { RefusesNoDocument }
    ensures no_json { RefusesNoJson }
    ensures no_command { RefusesNoCommand }
    ensures elements { RefusesElements }
    ensures unbuilt { RefusesLoop }
{}

/// What is asked of the services, call by call.
pub fn worked_asks()
    ensures chain { AsksChain }
    ensures failure { AsksFailure }
    ensures attempts { AsksAttempts }
    ensures generated { AsksGenerated }
    ensures checked { AsksNoCheck }
    ensures lineage { AsksLineage }
    ensures forward { AsksForward }
{}

/// Only a run that is answered asks for something.
pub fn others_ask_nothing()
    ensures others { OthersAskNothing }
    ensures refusals { RefusalsAskNothing }
    ensures not_asked { OthersAreNotAsked }
{}

/// The words that give a command, and the lines and codes of the statuses.
pub fn worked_words()
    ensures commands { TakesCommands }
    ensures other { TakesNothingElse }
    ensures status_codes { TellsCodes }
    ensures lines { TellsLines }
{}
