//! What holds of the definitions alone: each law is the clause of a function that does nothing.
ghost use Rattle.tv_history.specs.Laws.{OutIsCounted};

/// One try more is out once it was handed out, one fewer once its outcome was accepted, none after a recall, which tells how many
/// were, and as many as before after every other entry.
pub fn out_is_counted()
    ensures { OutIsCounted }
{}
