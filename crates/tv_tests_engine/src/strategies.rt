//! Strategies that the tests are about, and how many levels their ports walk.
ghost use Rattle.std.specs.Prelude.{◌≡◌, ◌++◌, ◌∷◌, [], IfOk, OnOk};
ghost use Rattle.tv_value.specs.Strategies.{dot, no_strategies, port, strategy};
ghost use Rattle.tv_value.specs.Views.{strategy_view};

use std::alloc::{AllocError, Global};
use std::fmt::Write;
use std::test::Fail;
use tv_strategy::{join, split};
use tv_value::{Depths, Name, NoMemory, Place, Sequence, Text, Tree, Trees};

fn leaf(alloc: Global, name: &str) -> Result<Tree, NoMemory>
    ensures { IfOk result (λ t. strategy_view t ≡ port name.now) }
{
    let name = Text::from_str(alloc, name)?;
    Ok(Tree::Leaf(name))
}

/// Two leaves, one beside the other.
pub(crate) fn pair(alloc: Global, first: &str, second: &str) -> Result<Tree, NoMemory>
    ensures { IfOk result (λ t. strategy_view t
        ≡ dot (strategy (port first.now) (strategy (port second.now) no_strategies))) }
{
    let first = leaf(alloc, first)?;
    let second = leaf(alloc, second)?;
    let trees = vec![in alloc; first, second]?;
    Ok(Tree::Dot(Trees::of(trees)))
}

/// One port more, with the number of levels that it walks.
fn push_levels(
    alloc: Global,
    depths: &mut Vec<(Name, u32)>,
    name: &str,
    levels: u32,
) -> Result<(), NoMemory>
    ensures { OnOk result (depths.new.items ≡ depths.old.items ++ (name.now, levels) ∷ []) }
{
    let name = Text::from_str(alloc, name)?;
    depths.push((name, levels))?;
    Ok(())
}

/// Both leaves walk one list.
pub(crate) fn ones(alloc: Global) -> Result<Depths, NoMemory>
    ensures { IfOk result (λ ds. ds ≡ (97 ∷ [], 1) ∷ (98 ∷ [], 1) ∷ []) }
{
    let mut depths = Vec::new(alloc);
    push_levels(alloc, &mut depths, "a", 1)?;
    push_levels(alloc, &mut depths, "b", 1)?;
    Ok(Sequence::of(depths))
}

fn say_parts(text: &mut String, parts: &[(Name, Place)]) -> Result<(), AllocError> {
    for (name, part) in parts {
        write!(text, "{} {:?};", name.as_str(), part.as_slice())?;
    }
    Ok(())
}

/// The places of the leaves that a place splits into, and the place that they join to.
fn split_and_joined(
    alloc: Global,
    tree: &Tree,
    mismatch: &Depths,
    place: &Place,
    text: &mut String,
) -> Result<(), Fail>
    requires tree { strategy_view tree.now
        ≡ dot (strategy (port (97 ∷ [])) (strategy (port (98 ∷ [])) no_strategies)) }
    requires mismatch { mismatch.now ≡ (97 ∷ [], 1) ∷ (98 ∷ [], 1) ∷ [] }
    requires place { place.now ≡ 3 ∷ [] }
{
    let places = split(alloc, tree, mismatch, place)?;
    say_parts(text, places.as_slice())?;
    if let Some(whole) = join(alloc, tree, mismatch, &places)? {
        write!(text, "{:?}", whole.as_slice())?;
    }
    Ok(())
}

/// What is said of a place of a dot.
fn of_a_dot(alloc: Global, text: &mut String) -> Result<(), Fail> {
    let tree = pair(alloc, "a", "b")?;
    let mismatch = ones(alloc)?;
    let place = Place::of(alloc, &[3])?;
    split_and_joined(alloc, &tree, &mismatch, &place, text)
}

#[test]
fn a_place_splits_and_joins(rt: HostRuntime) -> Result<(), Fail> {
    let mut text = String::new(rt.alloc());
    of_a_dot(rt.alloc(), &mut text)?;
    assert_eq!(rt; text.as_str(), "a [3];b [3];[3]");
    Ok(())
}
