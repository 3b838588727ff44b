//! What holds of the definitions alone, and the definitions computed on worked examples: each is the clause of a
//! function that does nothing, so a definition that comes to something else is refused.
ghost use Rattle.tv_words.specs.Stated.{CommandsAreBounded, CountsAreDecimal, NumbersAreDecimal};
ghost use Rattle.tv_words.specs.Worked.{RunsAreGiven, OthersAreGiven, FaultsAreRefused, StrangersAreRefused, NumbersAreRefused};

/// A count, and the number of a generated document, is read from its decimal text and from no other.
pub fn numbers_are_decimal()
    ensures counts { CountsAreDecimal }
    ensures numbers { NumbersAreDecimal }
{}

/// The workers of a command are 1 to 64, and the number of a generated document is 1 to 200.
pub fn commands_are_bounded()
    ensures { CommandsAreBounded }
{}

/// Words that give a command.
pub fn worked_commands()
    ensures runs { RunsAreGiven }
    ensures others { OthersAreGiven }
{}

/// Words that give none: `clap` refuses them, or the table hasn't them, or a number is none.
pub fn worked_refusals()
    ensures faults { FaultsAreRefused }
    ensures strangers { StrangersAreRefused }
    ensures numbers { NumbersAreRefused }
{}
