//! A board that is played by a script, and what it says.
//!
//! A script is a list of acts, parted by spaces. A ticket is written as the numbers of its job, its activity and its attempt,
//! as in `0/0/0`; an answer by its number from 0, in the order in which answers came. What is said of a type of the crates is its
//! debug form.
//!
//! | act | does | says |
//! |---|---|---|
//! | `settle` | settles one thing | whether there was one |
//! | `hand` | hands out a try | its ticket, or `none` |
//! | `move` | settles one thing, or where nothing can be hands out a try | which |
//! | `recall` | takes back all that is out | how many |
//! | `done` | | whether the run is done |
//! | `keeps` | | whether nodes are kept |
//! | `totals` | | the totals so far |
//! | `history` | | the entries |
//! | `task:0/0/0` | | what the ticket asks: the service, the depths of the outputs, the inputs; or where its job stands |
//! | `name:0` | | the name of the job, or `none` |
//! | `ask:0/0/0` | has the ticket's task answered by a gate | |
//! | `alone:0/0/0` | the same by an asker | |
//! | `noted:u` | | the jobs of a step that are settled, each with the elements of inputs that it leads to |
//! | `accept:0` | has an answer accepted; one that is refused may be tried again | what became of the job; if refused, where it stands, or `other` for other inputs |
//! | `rest` | takes back what is out, and works the board off | the result line |
use serde_json::Value as Json;
use std::alloc::{AllocError, Global};
use std::fmt::{Debug, Write};
use std::test::Fail;
use tv_board::{
    Accepted, Answer, Board, Entry, Refused, Task, TaskFault, Ticket, ask, ask_alone,
    output_values, values_of,
};
use tv_check::{CheckedRun, check};
use tv_flow::read_document;
use tv_gate::GateAsker;
use tv_json::{compact, element_text, job_text, json_of_value};
use tv_lineage::{Labels, Mark, Records};
use tv_local::{LocalGate, LocalServices};
use tv_report::result_line;
use tv_value::{Copied, JobName, NoMemory, Sequence, Text, Value};
use tv_work::run_alone;

/// An answer that the local services give.
pub(crate) type Given = Answer<LocalServices>;

/// A board that they answer.
type LocalBoard = Board<LocalServices>;

/// Plays a script on a board of a document, with the answers that came so far.
pub(crate) fn play(
    alloc: Global,
    document: &str,
    script: &str,
    answers: &mut Vec<Option<Given>>,
    said: &mut String,
) -> Result<(), Fail> {
    let mut board = Board::start(alloc, run_of(alloc, document)?)?;
    acts(alloc, &mut board, script, answers, said)
}

/// What a board can run of the document of a text.
fn run_of(alloc: Global, text: &str) -> Result<CheckedRun, Fail> {
    let json = Json::from_str(alloc, text)?;
    let document = read_document(alloc, &json).ok().ok_or("no document")?;
    Ok(
        check::<LocalServices>(alloc, document)
            .ok()
            .ok_or("not accepted")?,
    )
}

fn acts(
    alloc: Global,
    board: &mut LocalBoard,
    script: &str,
    answers: &mut Vec<Option<Given>>,
    said: &mut String,
) -> Result<(), Fail> {
    for act in script.split(' ') {
        let (act, of) = act.split_once(':').unwrap_or((act, ""));
        match act {
            "ask" | "alone" => answers.push(answer(alloc, board, &ticket_of(of), act == "alone")?)?,
            "accept" => accept(board, answers.get_mut(ticket_of(of).job as usize), said)?,
            _ => tell(alloc, board, act, of, said)?,
        }
    }
    Ok(())
}

/// The ticket of three numbers, of which those that aren't there are 0.
fn ticket_of(text: &str) -> Ticket {
    let mut numbers = [0u32; 3];
    for (number, digits) in numbers.iter_mut().zip(text.split('/')) {
        *number = digits.parse().unwrap_or(0);
    }
    let [job, activity, attempt] = numbers;
    Ticket {
        job: job as u64,
        activity,
        attempt,
    }
}

/// An act that brings and takes no answer.
fn tell(
    alloc: Global,
    board: &mut LocalBoard,
    act: &str,
    of: &str,
    said: &mut String,
) -> Result<(), NoMemory> {
    match act {
        "settle" => say(said, &board.settle_one()?),
        "hand" => say_ticket(said, board.hand_out()),
        "move" => say(said, &board.move_on()?),
        "recall" => say(said, &board.recall_all()?),
        "done" => say(said, &board.is_done()),
        "keeps" => say(said, &(board.live() > 0)),
        "totals" => say(said, &board.totals()),
        "history" => say_history(said, board.history()),
        "task" => say_task(alloc, said, &board.task(&ticket_of(of))),
        "name" => say_name(alloc, said, &board.name_of(ticket_of(of).job)?),
        "noted" => say_noted(alloc, said, &board.records()?, of),
        _ => rest(alloc, board, said),
    }
}

fn say<T: Debug>(said: &mut String, thing: &T) -> Result<(), NoMemory> {
    Ok(write!(said, "{thing:?} ")?)
}

fn say_text(said: &mut String, text: &str) -> Result<(), NoMemory> {
    Ok(write!(said, "{text} ")?)
}

fn say_ticket(said: &mut String, ticket: Option<Ticket>) -> Result<(), NoMemory> {
    Ok(match ticket {
        Some(ticket) => {
            let (activity, attempt) = (ticket.activity, ticket.attempt);
            write!(said, "{}/{activity}/{attempt} ", ticket.job)?
        }
        None => said.push_str("none ")?,
    })
}

fn say_history(said: &mut String, history: &[Entry]) -> Result<(), NoMemory> {
    for entry in history {
        say(said, entry)?;
    }
    Ok(())
}

fn say_task(
    alloc: Global,
    said: &mut String,
    task: &Result<Task, TaskFault>,
) -> Result<(), NoMemory> {
    match task {
        Ok(task) => say_question(alloc, said, task),
        Err(fault) => say(said, fault),
    }
}

/// The service, each output with its depth, and the inputs.
fn say_question(alloc: Global, said: &mut String, task: &Task) -> Result<(), NoMemory> {
    say_text(said, task.service.as_str())?;
    for (name, depth) in task.outputs.as_slice() {
        write!(said, "{}:{depth} ", name.as_str())?;
    }
    let inputs = Value::List(values_of(alloc, task.inputs.as_slice())?);
    let json = json_of_value(alloc, &inputs)?;
    say_text(said, compact(alloc, &json)?.as_str())
}

fn say_name(alloc: Global, said: &mut String, name: &Option<JobName>) -> Result<(), NoMemory> {
    match name {
        Some(name) => say_job(alloc, said, name),
        None => say_text(said, "none"),
    }
}

fn say_job(alloc: Global, said: &mut String, name: &JobName) -> Result<(), NoMemory> {
    say_text(said, job_text(alloc, name)?.as_str())
}

/// The jobs of a step that are noted, in order of place.
fn say_noted(
    alloc: Global,
    said: &mut String,
    records: &Records,
    step: &str,
) -> Result<(), NoMemory> {
    let step = Text::from_str(alloc, step)?;
    let jobs = records.by_step(alloc, &step)?;
    for job in jobs.as_slice() {
        say_job(alloc, said, job)?;
        say_labels(alloc, said, &leads(alloc, records, job)?)?;
    }
    say_text(said, ";")
}

/// The elements of inputs that a job leads to.
fn leads(alloc: Global, records: &Records, job: &JobName) -> Result<Labels, NoMemory> {
    let marks = vec![in alloc; Mark::Made(job.copy(alloc)?)]?;
    records.backward(alloc, &Sequence::of(marks))
}

fn say_labels(alloc: Global, said: &mut String, labels: &Labels) -> Result<(), NoMemory> {
    for (port, place) in labels.as_slice() {
        let text = element_text(alloc, port, place)?;
        write!(said, "<{} ", text.as_str())?;
    }
    Ok(())
}

/// Takes back what is out, and works the board off.
fn rest(alloc: Global, board: &mut LocalBoard, said: &mut String) -> Result<(), NoMemory> {
    let _recalled = board.recall_all()?;
    let gate = LocalGate::new();
    run_alone(alloc, board, &mut GateAsker::new(&gate))?;
    let outputs = output_values(alloc, board.outputs()?.as_slice())?;
    let line = result_line(alloc, &outputs, &board.totals())?;
    Ok(said.push_str(line.as_str())?)
}

/// Has a ticket's task answered by the local services, by an asker or by their gate. Without a task there is no answer.
fn answer(
    alloc: Global,
    board: &LocalBoard,
    ticket: &Ticket,
    alone: bool,
) -> Result<Option<Given>, NoMemory> {
    let Ok(task) = board.task(ticket) else {
        return Ok(None);
    };
    let gate = LocalGate::new();
    let answer = if alone {
        ask_alone(alloc, task, &mut GateAsker::new(&gate))
    } else {
        ask(alloc, task, &gate)
    };
    Ok(Some(answer?))
}

/// Has an answer accepted. One that is refused comes back.
fn accept(
    board: &mut LocalBoard,
    slot: Option<&mut Option<Given>>,
    said: &mut String,
) -> Result<(), AllocError> {
    let Some(slot) = slot else {
        return Ok(());
    };
    let Some(answer) = slot.take() else {
        return Ok(());
    };
    let accepted = board.accept(answer);
    let told = say_accepted(said, &accepted);
    *slot = given_back(accepted);
    told
}

fn say_accepted(
    said: &mut String,
    accepted: &Result<Accepted, Refused<LocalServices>>,
) -> Result<(), AllocError> {
    match accepted {
        Ok(accepted) => write!(said, "{accepted:?} "),
        Err(Refused::NotOut { state, .. }) => write!(said, "{state:?} "),
        Err(Refused::OtherInputs { .. }) => said.push_str("other "),
        Err(Refused::NoMemory { .. }) => said.push_str("memory "),
    }
}

fn given_back(accepted: Result<Accepted, Refused<LocalServices>>) -> Option<Given> {
    match accepted {
        Ok(_) => None,
        Err(Refused::NotOut { answer, .. }) => Some(answer),
        Err(Refused::OtherInputs { answer }) => Some(answer),
        Err(Refused::NoMemory { answer }) => Some(answer),
    }
}
