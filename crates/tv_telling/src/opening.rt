ghost use Rattle.std.specs.List.{list_all, list_any};
ghost use Rattle.std.specs.Prelude.{◌≡◌, ◌<◌, List, [], OnOk, is_some, length, map};
ghost use Rattle.tv_lemmas.specs.Members.{Each};
ghost use Rattle.tv_value.specs.Nested.{list, no_trees};
ghost use Rattle.tv_value.specs.Strategies.{Strategy};
ghost use Rattle.tv_value.specs.Values.{Value, holds_fault};
ghost use Rattle.tv_value.specs.Views.{view};
ghost use Rattle.tv_cell.specs.PieceValues.{piece_value};
ghost use Rattle.tv_matching.specs.Matchers.{leaf_name};
ghost use Rattle.tv_match.specs.Seen.{told_view};
ghost use Rattle.tv_check.specs.declared.feeds.NumberedFeed.TheVariants.{Merge};
ghost use Rattle.tv_telling.specs.ValueTellings.{bound_told, value_told};
ghost use Rattle.tv_telling.specs.Views.{AddsTellings};
ghost use Rattle.tv_telling.specs.WayTellings.{place_of_item};
ghost use Rattle.tv_telling.specs.Openings.{IsFedFrom, fixed_in, IsInput, is_numbered_input, numbered_feed_start, numbered_input_faulty, numbered_link_start, numbered_port_start};

use crate::tell_known;
use std::alloc::Global;
use tv_cell::{Cell, Path, Piece};
use tv_check::{NumberedFeed, NumberedLink, Port};
use tv_match::Told;
use tv_value::{NoMemory, Place};

/// Tells a port what is known of it when an instance opens on these inputs of its flow, in their order, each of which is said to
/// hold a fault or none, behind what stands in the list. `fixed` is the port's constant, where its feed is one.
///
/// Linear in the levels of the values that the port walks, and in the links of a merge. Where an input that it walks holds a fault,
/// what stands at the end of the walk is asked for faults; no other value is.
pub fn port_start(
    alloc: Global,
    inputs: &[Piece],
    faulty: &[bool],
    port: &Port,
    fixed: Option<&Cell>,
    tellings: &mut Vec<Told>,
) -> Result<(), NoMemory>
    requires fed { IsFedFrom (length inputs.now) (is_some fixed) port.now.feed }
    requires faulty { faulty.now ≡ map holds_fault (map piece_value inputs.now) }
    ensures { OnOk result (AddsTellings tellings.old.items tellings.new.items
        (λ s. numbered_port_start (map piece_value inputs.now) (fixed_in fixed.entry) s port.now)) }
{
    match &port.feed {
        NumberedFeed::Link(link) => {
            link_start(
                alloc,
                inputs,
                faulty,
                port.leaf,
                port.levels,
                None,
                link,
                tellings,
            )
        }
        NumberedFeed::Merge(links) => merge_start(
            alloc,
            inputs,
            faulty,
            port.leaf,
            port.levels,
            links.as_slice(),
            tellings,
        ),
        NumberedFeed::Constant => match fixed {
            Some(cell) => fixed_start(alloc, port.leaf, port.levels, cell, tellings),
            None => unreachable!(),
        },
    }
}

/// Tells a port of a constant.
fn fixed_start(
    alloc: Global,
    leaf: u32,
    levels: u32,
    cell: &Cell,
    tellings: &mut Vec<Told>,
) -> Result<(), NoMemory>
    ensures { OnOk result (AddsTellings tellings.old.items tellings.new.items
        (λ s. value_told (leaf_name s leaf) levels [] (view cell.now))) }
{
    let faulty = cell.holds_fault();
    let cell = cell.share()?;
    let piece = Piece::Part(cell, Path::top(alloc));
    tell_known(alloc, leaf, levels, None, &piece, faulty, tellings)
}

/// Tells a port of a link, of which it walks so many levels: all of an input. Where the port merges links, the value stands at
/// the link's number.
fn link_start(
    alloc: Global,
    inputs: &[Piece],
    faulty: &[bool],
    leaf: u32,
    levels: u32,
    item: Option<u32>,
    link: &NumberedLink,
    tellings: &mut Vec<Told>,
) -> Result<(), NoMemory>
    requires input { IsInput (length inputs.now) link.now }
    requires faulty { faulty.now ≡ map holds_fault (map piece_value inputs.now) }
    ensures { OnOk result (AddsTellings tellings.old.items tellings.new.items
        (λ s. numbered_link_start (map piece_value inputs.now) (leaf_name s leaf)
        levels (place_of_item item) link.now)) }
{
    match link {
        NumberedLink::Input(input) => {
            let piece = &inputs[*input as usize];
            tell_known(
                alloc,
                leaf,
                levels,
                item,
                piece,
                faulty[*input as usize],
                tellings,
            )
        }
        NumberedLink::Output(_, _) => Ok(()),
    }
}

/// Tells a port of a merge: where it walks some levels, of its list and those links that are inputs.
fn merge_start(
    alloc: Global,
    inputs: &[Piece],
    faulty: &[bool],
    leaf: u32,
    levels: u32,
    links: &[NumberedLink],
    tellings: &mut Vec<Told>,
) -> Result<(), NoMemory>
    requires inputs { Each (IsInput (length inputs.now)) links.now }
    requires few { length links.now < 4294967296 }
    requires faulty { faulty.now ≡ map holds_fault (map piece_value inputs.now) }
    ensures { OnOk result (AddsTellings tellings.old.items tellings.new.items
        (λ s. numbered_feed_start (map piece_value inputs.now) (list tt no_trees) (leaf_name s leaf)
        levels (Merge links.now))) }
{
    if levels == 0 {
        return whole_merge_start(alloc, faulty, leaf, links, tellings);
    }
    tellings.push(Told::Close {
        leaf,
        place: Place::top(alloc),
        length: links.len() as u32,
    })?;
    for (index, link) in links.iter().enumerate() {
        let item = Some(index as u32);
        link_start(
            alloc,
            inputs,
            faulty,
            leaf,
            levels - 1,
            item,
            link,
            tellings,
        )?;
    }
    Ok(())
}

/// Tells a port of a merge that it takes whole: that it is there, where all links are inputs.
fn whole_merge_start(
    alloc: Global,
    faulty: &[bool],
    leaf: u32,
    links: &[NumberedLink],
    tellings: &mut Vec<Told>,
) -> Result<(), NoMemory>
    requires { Each (IsInput (length faulty.now)) links.now }
    ensures { (values : List Value) → faulty.now ≡ map holds_fault values
        → OnOk result (AddsTellings tellings.old.items tellings.new.items
        (λ s. numbered_feed_start values (list tt no_trees) (leaf_name s leaf) 0
        (Merge links.now))) }
{
    if are_inputs(links) {
        tellings.push(bound(alloc, leaf, some_faulty(faulty, links)))?;
    }
    Ok(())
}

/// A value that a port takes whole.
fn bound(alloc: Global, leaf: u32, faulty: bool) -> Told
    ensures { (s : Strategy) → told_view s result ≡ bound_told (leaf_name s leaf) [] faulty }
{
    let place = Place::top(alloc);
    if faulty {
        return Told::Faulty { leaf, place };
    }
    Told::Arrival {
        leaf,
        place,
        fault: false,
    }
}

fn is_input(link: &NumberedLink) -> bool
    ensures { result ≡ is_numbered_input link.now }
{
    match link {
        NumberedLink::Input(_) => true,
        NumberedLink::Output(_, _) => false,
    }
}

fn are_inputs(links: &[NumberedLink]) -> bool
    ensures { result ≡ list_all is_numbered_input links.now }
{
    for link in links {
        if !is_input(link) {
            return false;
        }
    }
    true
}

/// Whether a link is an input that holds a fault.
fn is_faulty(faulty: &[bool], link: &NumberedLink) -> bool
    requires { IsInput (length faulty.now) link.now }
    ensures { (values : List Value) → faulty.now ≡ map holds_fault values
        → result ≡ numbered_input_faulty values link.now }
{
    match link {
        NumberedLink::Input(input) => faulty[*input as usize],
        NumberedLink::Output(_, _) => false,
    }
}

fn some_faulty(faulty: &[bool], links: &[NumberedLink]) -> bool
    requires { Each (IsInput (length faulty.now)) links.now }
    ensures { (values : List Value) → faulty.now ≡ map holds_fault values
        → result ≡ list_any (numbered_input_faulty values) links.now }
{
    for link in links {
        if is_faulty(faulty, link) {
            return true;
        }
    }
    false
}
