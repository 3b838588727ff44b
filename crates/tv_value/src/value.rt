ghost use Rattle.std.specs.Prelude.{◌≡◌, ◌+◌, ◌<◌, ◌^◌, IfOk, OnOk, map, option_map};
ghost use Rattle.std.specs.List.{list_any};
ghost use Rattle.tv_value.specs.Nested.{at, trees_of, item_at, children, leaves, all_leaves};
ghost use Rattle.tv_value.specs.Values.{has_depth, all_have_depth, is_fault, holds_fault, makers_of};
ghost use Rattle.tv_value.specs.Orders.{job_name_cmp, in_order, put_in_order, put_all};
ghost use Rattle.tv_value.specs.DepthSets.{depths, common_depths, least_depth};
ghost use Rattle.tv_value.specs.DepthViews.{depth_set_view};
ghost use Rattle.tv_value.specs.Views.{view, items_view, error_view};

use crate::copied::Copied;
use crate::depth::DepthSet;
use crate::job_name::{JobName, JobNames};
use crate::memory::NoMemory;
use crate::place::Place;
use crate::sequence::Sequence;
use crate::text::{Name, Text};
use std::alloc::Global;
use std::collections::BTreeSet;

/// Names with a number each: the ports of a step or flow with their depths.
pub type Depths = Sequence<(Name, u32)>;

/// An error that stands in the place of a value.
#[derive(Drop)]
pub struct ErrorDoc {
    /// The job that made it.
    pub at: JobName,
    /// The depth of the value whose place it takes.
    pub depth: u32,
    /// Why there is no value.
    pub why: Text,
    /// The jobs whose faults it came from, in order, each once.
    pub from: JobNames,
}

/// A value: a text, a list of values, or an error document in the place of one.
#[derive(Drop)]
#[cycle(value)]
pub enum Value {
    Text(Text),
    List(Items),
    Fault(Box<ErrorDoc>),
}

/// A list of values.
#[derive(Drop)]
#[cycle(value)]
pub struct Items {
    pub values: Vec<Value>,
}

impl ErrorDoc {
    /// An equal document of its own.
    pub fn copy(&self, alloc: Global) -> Result<ErrorDoc, NoMemory>
        ensures { IfOk result (λ e. error_view e ≡ error_view self.now) }
    {
        let at = self.at.copy(alloc)?;
        let why = self.why.copy(alloc)?;
        let from = self.from.copy(alloc)?;
        Ok(ErrorDoc {
            at,
            depth: self.depth,
            why,
            from,
        })
    }
}

impl Value {
    /// An equal value of its own. Linear in its size.
    #[cycle(copy)]
    pub fn copy(&self, alloc: Global) -> Result<Value, NoMemory>
        ensures { IfOk result (λ v. view v ≡ view self.now) }
    {
        match self {
            Value::Text(text) => Ok(Value::Text(text.copy(alloc)?)),
            Value::List(items) => Ok(Value::List(items.copy(alloc)?)),
            Value::Fault(error) => {
                let error = error.copy(alloc)?;
                Ok(Value::Fault(Box::new(alloc, error)?))
            }
        }
    }

    /// Whether the value has this depth. Linear in its size at the most.
    #[cycle(depth)]
    pub fn has_depth(&self, depth: u32) -> bool
        ensures { result ≡ has_depth (view self.now) depth }
    {
        match self {
            Value::Text(_) => depth == 0,
            Value::List(items) => depth > 0 && items.have_depth(depth - 1),
            Value::Fault(error) => error.depth == depth,
        }
    }

    #[cycle(depths)]
    pub(crate) fn depths(&self) -> DepthSet
        ensures { depth_set_view result ≡ depths (view self.now) }
    {
        match self {
            Value::Text(_) => DepthSet::Exactly(0),
            Value::List(items) => items.common_depths().one_deeper(),
            Value::Fault(error) => DepthSet::Exactly(error.depth),
        }
    }

    /// The least depth that the value has, or `None` where it has none below 2^32. Linear in its size.
    pub fn least_depth(&self) -> Option<u32>
        ensures { result ≡ least_depth (view self.now) }
    {
        self.depths().least()
    }

    /// Whether the value is an error document or contains one. Linear in its size at the most.
    #[cycle(holds_fault)]
    pub fn holds_fault(&self) -> bool
        ensures { result ≡ holds_fault (view self.now) }
    {
        match self {
            Value::Text(_) => false,
            Value::List(items) => items.hold_fault(),
            Value::Fault(_) => true,
        }
    }

    /// The jobs that made the error documents in the value, in order of their names, each once. The order is level by
    /// level by step, then place, a prefix first. Takes n log n steps for n documents, and a copy of each name.
    pub fn faults(&self, alloc: Global) -> Result<JobNames, NoMemory>
        ensures { IfOk result (λ ns. ns
            ≡ in_order job_name_cmp (makers_of (leaves (view self.now)))) }
    {
        let mut makers = BTreeSet::new(alloc);
        self.put_makers(alloc, &mut makers)?;
        Ok(Sequence::of(names_of(alloc, makers)?))
    }

    /// Puts the makers of the errors into a set, the last first.
    #[cycle(makers)]
    fn put_makers(&self, alloc: Global, makers: &mut BTreeSet<JobName>) -> Result<(), NoMemory>
        ensures { OnOk result (makers.new.keys
            ≡ put_all job_name_cmp (makers_of (leaves (view self.now))) makers.old.keys) }
    {
        match self {
            Value::Text(_) => Ok(()),
            Value::List(items) => items.put_makers(alloc, makers),
            Value::Fault(error) => put_maker(alloc, &error.at, makers),
        }
    }

    /// What stands at a place, or `None` where nothing does. Linear in the place.
    pub fn at(&self, place: &Place) -> Option<&Value>
        ensures { option_map (λ v. view v.now) result ≡ at (view self.now) place.now }
    {
        let mut part = self;
        for index in place.as_slice() {
            match part.item(*index) {
                Some(item) => part = item,
                None => return None,
            }
        }
        Some(part)
    }

    /// The item of a list.
    fn item(&self, index: u32) -> Option<&Value>
        ensures { option_map (λ v. view v.now) result ≡ item_at (children (view self.now)) index }
    {
        match self {
            Value::List(items) => items.item(index as usize),
            _ => None,
        }
    }
}

/// Puts one name into a set.
fn put_maker(alloc: Global, maker: &JobName, makers: &mut BTreeSet<JobName>) -> Result<(), NoMemory>
    ensures { OnOk result (makers.new.keys ≡ put_in_order job_name_cmp maker.now makers.old.keys) }
{
    let maker = maker.copy(alloc)?;
    makers.insert(maker)?;
    Ok(())
}

/// The names of a set, in order.
fn names_of(alloc: Global, names: BTreeSet<JobName>) -> Result<Vec<JobName>, NoMemory>
    ensures { IfOk result (λ ns. ns.items ≡ names.keys) }
{
    Ok(names.into_iter().collect(alloc)?)
}

impl Items {
    /// The values of a vector. Takes no memory.
    pub fn of(values: Vec<Value>) -> Items
        ensures { items_view result ≡ trees_of (map view values.items) }
    {
        Items { values }
    }

    /// The values as a vector. Takes no memory.
    pub fn into_vec(self) -> Vec<Value>
        ensures { trees_of (map view result.items) ≡ items_view self }
    {
        self.values
    }

    /// The values, in order.
    pub fn as_slice(&self) -> &[Value]
        ensures { trees_of (map view result.now) ≡ items_view self.now }
    {
        self.values.as_slice()
    }

    fn item(&self, index: usize) -> Option<&Value>
        ensures { option_map (λ v. view v.now) result ≡ item_at (items_view self.now) index }
    {
        if index < self.values.len() {
            Some(&self.values[index])
        } else {
            None
        }
    }

    /// An equal list of its own. Linear in its size.
    #[cycle(copy)]
    pub fn copy(&self, alloc: Global) -> Result<Items, NoMemory>
        ensures { IfOk result (λ vs. items_view vs ≡ items_view self.now) }
    {
        let mut values = Vec::with_capacity(alloc, self.values.len())?;
        for value in &self.values {
            values.push(value.copy(alloc)?)?;
        }
        Ok(Items { values })
    }

    #[cycle(holds_fault)]
    fn hold_fault(&self) -> bool
        ensures { result ≡ list_any is_fault (all_leaves (items_view self.now)) }
    {
        for value in &self.values {
            if value.holds_fault() {
                return true;
            }
        }
        false
    }

    #[cycle(makers)]
    fn put_makers(&self, alloc: Global, makers: &mut BTreeSet<JobName>) -> Result<(), NoMemory>
        ensures { OnOk result (makers.new.keys
            ≡ put_all job_name_cmp (makers_of (all_leaves (items_view self.now))) makers.old.keys) }
    {
        let mut left = self.values.len();
        while left > 0 {
            left -= 1;
            self.values[left].put_makers(alloc, makers)?;
        }
        Ok(())
    }

    #[cycle(depths)]
    pub(crate) fn common_depths(&self) -> DepthSet
        ensures { depth_set_view result ≡ common_depths (items_view self.now) }
    {
        let mut common = DepthSet::AtLeast(0);
        let mut left = self.values.len();
        while left > 0 {
            left -= 1;
            common = self.values[left].depths().common(common);
        }
        common
    }

    #[cycle(depth)]
    fn have_depth(&self, depth: u32) -> bool
        ensures { result ≡ all_have_depth (items_view self.now) depth }
    {
        for value in &self.values {
            if !value.has_depth(depth) {
                return false;
            }
        }
        true
    }
}
