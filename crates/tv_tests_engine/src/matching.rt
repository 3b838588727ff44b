//! A worked matching: what comes out of each telling, as a text.
ghost use Rattle.std.specs.Prelude.{◌≡◌, ◌<◌, ◌++◌, ◌∷◌, [], false, length, map, IfOk, OnOk};
ghost use Rattle.tv_value.specs.Views.{strategy_view};
ghost use Rattle.tv_strategy.specs.Measures.{leaf_names};
ghost use Rattle.tv_matching.specs.Matchers.{CanTell, CanTellAll, IsTold};
ghost use Rattle.tv_match.specs.Seen.{told_view, leaf_of, NameLeaves, matching, IsSound};
ghost use Rattle.tv_match.specs.Scripts.{IsScript};

use crate::strategies::{ones, pair};
use std::alloc::Global;
use std::test::Fail;
use tv_match::{Matcher, Told, Tolds};
use tv_value::{Depths, NoMemory, Place, Sequence, Tree};

/// A strategy with the numbers of its ports, and what is told in turn.
#[derive(Drop)]
struct Script {
    tree: Tree,
    mismatch: Depths,
    tolds: Tolds,
}

fn push_arrival(
    alloc: Global,
    tolds: &mut Vec<Told>,
    leaf: u32,
    place: &[u32],
    fault: bool,
) -> Result<(), NoMemory>
    ensures { OnOk result (tolds.new.items ≡ tolds.old.items ++ Told.Arrival leaf place.now fault
        ∷ []) }
{
    let place = Place::of(alloc, place)?;
    tolds.push(Told::Arrival { leaf, place, fault })?;
    Ok(())
}

fn push_faulty(
    alloc: Global,
    tolds: &mut Vec<Told>,
    leaf: u32,
    place: &[u32],
) -> Result<(), NoMemory>
    ensures { OnOk result (tolds.new.items ≡ tolds.old.items ++ Told.Faulty leaf place.now ∷ []) }
{
    let place = Place::of(alloc, place)?;
    tolds.push(Told::Faulty { leaf, place })?;
    Ok(())
}

fn push_close(
    alloc: Global,
    tolds: &mut Vec<Told>,
    leaf: u32,
    place: &[u32],
    length: u32,
) -> Result<(), NoMemory>
    ensures { OnOk result (tolds.new.items ≡ tolds.old.items ++ Told.Close leaf place.now length
        ∷ []) }
{
    let place = Place::of(alloc, place)?;
    tolds.push(Told::Close {
        leaf,
        place,
        length,
    })?;
    Ok(())
}

/// A list of two, and a list of one, which holds a fault.
fn two_lists(alloc: Global) -> Result<Tolds, NoMemory>
    ensures { IfOk result (λ ts. ts ≡ Told.Arrival 0 (0 ∷ []) false ∷ Told.Close 0 [] 2
        ∷ Told.Faulty 1 (0 ∷ []) ∷ Told.Close 1 [] 1 ∷ Told.Arrival 0 (1 ∷ []) false ∷ []) }
{
    let mut tolds = Vec::new(alloc);
    push_arrival(alloc, &mut tolds, 0, &[0], false)?;
    push_close(alloc, &mut tolds, 0, &[], 2)?;
    push_faulty(alloc, &mut tolds, 1, &[0])?;
    push_close(alloc, &mut tolds, 1, &[], 1)?;
    push_arrival(alloc, &mut tolds, 0, &[1], false)?;
    Ok(Sequence::of(tolds))
}

/// A list of two, and beside it a list of one, which holds a fault.
fn shorter_beside_longer(alloc: Global) -> Result<Script, NoMemory>
    ensures { IfOk result (λ x. IsScript (strategy_view x.tree) x.mismatch x.tolds) }
{
    let tree = pair(alloc, "a", "b")?;
    let mismatch = ones(alloc)?;
    let tolds = two_lists(alloc)?;
    Ok(Script {
        tree,
        mismatch,
        tolds,
    })
}

/// A matcher of the script's strategy, which can be told the script.
fn start(alloc: Global, script: &Script) -> Result<Matcher, NoMemory>
    requires { IsScript (strategy_view script.now.tree) script.now.mismatch script.now.tolds }
    ensures sound { IfOk result (λ m. IsSound m) }
    ensures leaves { IfOk result (λ m. NameLeaves (matching m).strategy script.now.tolds) }
    ensures new { IfOk result (λ m. CanTellAll (matching m) (map (told_view (matching m).strategy)
        script.now.tolds)) }
{
    Matcher::start(alloc, &script.tree, &script.mismatch)
}

/// Takes out all that is shown and hasn't come out.
fn pass_all(matcher: &mut Matcher, text: &mut String) -> Result<(), Fail>
    requires { IsSound matcher.old }
    ensures sound { IsSound matcher.new }
    ensures strategy { (matching matcher.new).strategy ≡ (matching matcher.old).strategy }
    ensures mismatch { (matching matcher.new).mismatch ≡ (matching matcher.old).mismatch }
    ensures told { (matching matcher.new).told ≡ (matching matcher.old).told }
{
    for _ in matcher.given()..matcher.shown() {
        let Some((place, kind)) = matcher.first() else {
            break;
        };
        write!(text, "{place:?} {kind:?};")?;
        matcher.pass();
    }
    Ok(())
}

fn tell(matcher: &mut Matcher, told: &Told) -> Result<(), NoMemory>
    requires sound { IsSound matcher.old }
    requires leaf { leaf_of told.now < length (leaf_names (matching matcher.old).strategy) }
    requires new { CanTell (matching matcher.old) (told_view (matching matcher.old).strategy
        told.now) }
    ensures ok { OnOk result (IsTold (told_view (matching matcher.old).strategy told.now)
        (matching matcher.old) (matching matcher.new)) }
    ensures sound { IsSound matcher.new }
{
    match told {
        Told::Arrival { leaf, place, fault } => matcher.on_arrival(*leaf, place, *fault),
        Told::Faulty { leaf, place } => matcher.on_faulty(*leaf, place),
        Told::Close {
            leaf,
            place,
            length,
        } => matcher.on_close(*leaf, place, *length),
    }
}

/// Tells all of these, and says behind each what comes out.
fn tell_all(matcher: &mut Matcher, tolds: &[Told], text: &mut String) -> Result<(), Fail>
    requires sound { IsSound matcher.old }
    requires leaves { NameLeaves (matching matcher.old).strategy tolds.now }
    requires new { CanTellAll (matching matcher.old)
        (map (told_view (matching matcher.old).strategy) tolds.now) }
{
    let Some((first, others)) = tolds.split_first() else {
        return Ok(());
    };
    tell(matcher, first)?;
    text.push_str("/")?;
    pass_all(matcher, text)?;
    tell_all(matcher, others, text)
}

/// What comes out before all tellings of the script, and of each.
fn tell_script(matcher: &mut Matcher, script: &Script, text: &mut String) -> Result<(), Fail>
    requires sound { IsSound matcher.old }
    requires leaves { NameLeaves (matching matcher.old).strategy script.now.tolds }
    requires new { CanTellAll (matching matcher.old)
        (map (told_view (matching matcher.old).strategy) script.now.tolds) }
{
    pass_all(matcher, text)?;
    tell_all(matcher, script.tolds.as_slice(), text)
}

/// What is said of a list of two, and beside it a list of one, which holds a fault.
fn tell_one_by_one(alloc: Global, text: &mut String) -> Result<(), Fail> {
    let script = shorter_beside_longer(alloc)?;
    let mut matcher = start(alloc, &script)?;
    tell_script(&mut matcher, &script, text)
}

#[test]
fn a_dot_goes_on_to_the_shorter_list(rt: HostRuntime) -> Result<(), Fail> {
    let mut text = String::new(rt.alloc());
    tell_one_by_one(rt.alloc(), &mut text)?;
    assert_eq!(rt;
        text.as_str(),
        "///[0] Job { faulty: true };/[] Closed(1);/"
    );
    Ok(())
}
