//! Equal flows of their own: each part stands for what the original stands for. All are linear in what they copy.
ghost use Rattle.std.specs.Prelude.{◌≡◌, ◌∷◌, IfOk, map, option_map};
ghost use Rattle.tv_value.specs.Activities as spec_activity;
ghost use Rattle.tv_value.specs.Views.{strategy_view};
ghost use Rattle.tv_flow.specs.Flows as spec;
ghost use Rattle.tv_flow.specs.Views.{each, link_view, feed_view, activity_view, repeat_view, step_input_view, step_view, flow_view};

use crate::document::{Activity, Feed, Flow, Link, Repeat, Step, StepInput};
use std::alloc::Global;
use tv_value::{Copied, Name, NoMemory, Sequence, Tree};

/// Things of which others can be made that stand for the same.
pub(crate) trait Alike: Sized + Drop {
    ghost Seen: { Type 0 };

    ghost seen: { Self → Seen };

    fn alike(&self, alloc: Global) -> Result<Self, NoMemory>
        ensures { IfOk result (λ c. seen c ≡ seen self.now) };
}

/// A list of things that stand for the same.
fn all_alike<T: Alike>(alloc: Global, things: &Sequence<T>) -> Result<Sequence<T>, NoMemory>
    ensures { IfOk result (λ c. map T.seen c ≡ map T.seen things.now) }
{
    let things = things.as_slice();
    let mut copies = Vec::with_capacity(alloc, things.len())?;
    for thing in things {
        copies.push(thing.alike(alloc)?)?;
    }
    Ok(Sequence::of(copies))
}

/// The same names with things that stand for the same.
fn each_alike<T: Alike>(
    alloc: Global,
    entries: &Sequence<(Name, T)>,
) -> Result<Sequence<(Name, T)>, NoMemory>
    ensures { IfOk result (λ c. each T.seen c ≡ each T.seen entries.now) }
{
    let entries = entries.as_slice();
    let mut copies = Vec::with_capacity(alloc, entries.len())?;
    for (name, thing) in entries {
        let name = name.copy(alloc)?;
        let thing = thing.alike(alloc)?;
        copies.push((name, thing))?;
    }
    Ok(Sequence::of(copies))
}

fn repeat_alike(alloc: Global, repeat: &Option<Repeat>) -> Result<Option<Repeat>, NoMemory>
    ensures { IfOk result (λ c. option_map repeat_view c ≡ option_map repeat_view repeat.now) }
{
    match repeat {
        Some(repeat) => Ok(Some(repeat.alike(alloc)?)),
        None => Ok(None),
    }
}

fn given_alike(alloc: Global, tree: &Option<Tree>) -> Result<Option<Tree>, NoMemory>
    ensures { IfOk result (λ c. option_map strategy_view c ≡ option_map strategy_view tree.now) }
{
    match tree {
        Some(tree) => Ok(Some(tree.copy(alloc)?)),
        None => Ok(None),
    }
}

impl Alike for Link {
    ghost Seen = { spec.Link };

    ghost seen = { link_view };

    fn alike(&self, alloc: Global) -> Result<Link, NoMemory> {
        match self {
            Link::Input(name) => Ok(Link::Input(name.copy(alloc)?)),
            Link::Output(step, port) => {
                let step = step.copy(alloc)?;
                let port = port.copy(alloc)?;
                Ok(Link::Output(step, port))
            }
        }
    }
}

impl Alike for Feed {
    ghost Seen = { spec.Feed };

    ghost seen = { feed_view };

    fn alike(&self, alloc: Global) -> Result<Feed, NoMemory> {
        match self {
            Feed::Input(name) => Ok(Feed::Input(name.copy(alloc)?)),
            Feed::Output(step, port) => {
                let step = step.copy(alloc)?;
                let port = port.copy(alloc)?;
                Ok(Feed::Output(step, port))
            }
            Feed::Merge(links) => Ok(Feed::Merge(all_alike(alloc, links)?)),
            Feed::Constant(value) => Ok(Feed::Constant(value.copy(alloc)?)),
        }
    }
}

impl Alike for Activity {
    ghost Seen = { spec_activity.Activity };

    ghost seen = { activity_view };

    fn alike(&self, alloc: Global) -> Result<Activity, NoMemory> {
        match self {
            Activity::Service(name) => Ok(Activity::Service(name.copy(alloc)?)),
            Activity::Nested(name) => Ok(Activity::Nested(name.copy(alloc)?)),
        }
    }
}

impl Alike for Repeat {
    ghost Seen = { spec_activity.Repeat };

    ghost seen = { repeat_view };

    fn alike(&self, alloc: Global) -> Result<Repeat, NoMemory> {
        let service = self.service.copy(alloc)?;
        let until = self.until.copy(alloc)?;
        Ok(Repeat {
            service,
            until,
            most: self.most,
        })
    }
}

impl Alike for StepInput {
    ghost Seen = { spec.StepInput };

    ghost seen = { step_input_view };

    fn alike(&self, alloc: Global) -> Result<StepInput, NoMemory> {
        let from = self.from.alike(alloc)?;
        Ok(StepInput {
            depth: self.depth,
            from,
        })
    }
}

impl Alike for Step {
    ghost Seen = { spec.Step };

    ghost seen = { step_view };

    fn alike(&self, alloc: Global) -> Result<Step, NoMemory> {
        let inputs = each_alike(alloc, &self.inputs)?;
        let outputs = self.outputs.copy(alloc)?;
        let strategy = given_alike(alloc, &self.strategy)?;
        let activities = all_alike(alloc, &self.activities)?;
        let after = self.after.copy(alloc)?;
        let repeat = repeat_alike(alloc, &self.repeat)?;
        Ok(Step {
            inputs,
            outputs,
            strategy,
            activities,
            retries: self.retries,
            jobs: self.jobs,
            after,
            repeat,
        })
    }
}

impl Alike for Flow {
    ghost Seen = { spec.Flow };

    ghost seen = { flow_view };

    fn alike(&self, alloc: Global) -> Result<Flow, NoMemory> {
        let inputs = self.inputs.copy(alloc)?;
        let steps = each_alike(alloc, &self.steps)?;
        let outputs = each_alike(alloc, &self.outputs)?;
        Ok(Flow {
            inputs,
            steps,
            outputs,
        })
    }
}

impl Flow {
    /// A flow of its own that stands for the same. Linear in its size.
    pub fn copy(&self, alloc: Global) -> Result<Flow, NoMemory>
        ensures { IfOk result (λ f. flow_view f ≡ flow_view self.now) }
    {
        self.alike(alloc)
    }
}
