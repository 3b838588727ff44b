ghost use Rattle.std.specs.Prelude.{◌≡◌, ◌++◌, ◌-◌, ◌<◌, ◌∷◌, [], IfOk, OnOk, false, flat_map, map};
ghost use Rattle.tv_lemmas.specs.Members.{Each};
ghost use Rattle.tv_value.specs.Values.{holds_fault};
ghost use Rattle.tv_cell.specs.PieceValues.{piece_value};
ghost use Rattle.tv_matching.specs.Matchers.{leaf_name};
ghost use Rattle.tv_telling.specs.Views.{AddsTellings, AreTellings, HasOutput, HasPiece, IsFaultless, happening, way_tellings, whole_telling};
ghost use Rattle.tv_telling.specs.ValueTellings.{value_told};
ghost use Rattle.tv_telling.specs.WayTellings.{place_of_item, told_there};

use crate::telling::{tell_bound, tell_fault, tell_list};
use crate::walking::tell_piece;
use crate::ways::{Event, Happened, Way, Whole};
use std::alloc::Global;
use tv_cell::Piece;
use tv_match::{Told, Tolds};
use tv_value::NoMemory;

/// What the ports at the ends of these ways are told with an event, way by way, and then that those ports, which take their
/// values whole, have them.
///
/// Linear in the ways and in the tellings. Of a value that a job gave, only the levels are looked at that are walked; where the
/// event counts a fault at its place, for each way whose walk ends below it what stands at that end is asked for faults too, linear
/// in its pieces, and in parts of values with faults. What was told before goes, and its memory is room for these; so is that of
/// the place.
pub fn tellings_with(
    alloc: Global,
    ways: &[Way],
    whole: &[Whole],
    event: &Event,
    before: Tolds,
    place: &mut Vec<u32>,
) -> Result<Tolds, NoMemory>
    requires { Each (λ w. HasOutput event.now w.output) ways.now }
    ensures { IfOk result (λ ts. AreTellings ts (λ s. flat_map (way_tellings s event.now) ways.now
        ++ map (whole_telling s) whole.now)) }
{
    let mut tellings = before.into_vec();
    tellings.clear();
    for way in ways {
        tell_way(alloc, way, event, place, &mut tellings)?;
    }
    for port in whole {
        tell_bound(alloc, port.leaf, &[], port.faulty, &mut tellings)?;
    }
    Ok(Tolds::of(tellings))
}

/// Tells a port of a value that is known throughout, of which it walks so many levels, and which is said to hold a fault or none,
/// behind what stands in the list. Where the port merges links, the value stands at the link's number.
///
/// Linear in the tellings; where a value with a fault is walked, what stands at the end of the walk is asked for faults.
pub fn tell_known(
    alloc: Global,
    leaf: u32,
    levels: u32,
    item: Option<u32>,
    piece: &Piece,
    faulty: bool,
    tellings: &mut Vec<Told>,
) -> Result<(), NoMemory>
    requires { faulty ≡ holds_fault (piece_value piece.now) }
    ensures { OnOk result (AddsTellings tellings.old.items tellings.new.items
        (λ s. value_told (leaf_name s leaf) levels (place_of_item item) (piece_value piece.now))) }
{
    if levels == 0 {
        return match item {
            Some(index) => tell_bound(alloc, leaf, [index].as_slice(), faulty, tellings),
            None => tell_bound(alloc, leaf, &[], faulty, tellings),
        };
    }
    let mut place = Vec::new(alloc);
    if let Some(index) = item {
        place.push(index)?;
    }
    tell_piece(
        alloc,
        leaf,
        levels as usize,
        &mut place,
        piece,
        faulty,
        tellings,
    )
}

/// Tells the port at the end of a way. The place is working room.
fn tell_way(
    alloc: Global,
    way: &Way,
    event: &Event,
    place: &mut Vec<u32>,
    tellings: &mut Vec<Told>,
) -> Result<(), NoMemory>
    requires { HasOutput event.now way.now.output }
    ensures { OnOk result (AddsTellings tellings.old.items tellings.new.items
        (λ s. way_tellings s event.now way.now)) }
{
    place.clear();
    if let Some(index) = way.item {
        place.push(index)?;
    }
    let levels = way.levels as usize;
    let faults = event.faults[way.output as usize];
    if levels > event.place.len() {
        place.extend_from_slice(event.place)?;
        return tell_there(
            alloc,
            way,
            levels - event.place.len(),
            place,
            &event.happened,
            event.place.len() < faults,
            tellings,
        );
    }
    if event.whole_from > levels {
        return Ok(());
    }
    place.extend_from_slice(&event.place[..levels])?;
    tell_bound(alloc, way.leaf, place.as_slice(), levels < faults, tellings)
}

/// Tells the port of what happened at a place of its value, of which it walks so many levels more.
fn tell_there(
    alloc: Global,
    way: &Way,
    levels: usize,
    place: &mut Vec<u32>,
    happened: &Happened,
    faulty: bool,
    tellings: &mut Vec<Told>,
) -> Result<(), NoMemory>
    requires piece { HasPiece happened.now way.now.output }
    requires faulty { faulty ≡ false → IsFaultless (happening happened.now way.now.output) }
    ensures { OnOk result (AddsTellings tellings.old.items tellings.new.items
        (λ s. told_there (leaf_name s way.now.leaf) levels place.old.items
        (happening happened.now way.now.output))) }
{
    match happened {
        Happened::Gave(pieces) => {
            let piece = &pieces[way.output as usize];
            tell_piece(alloc, way.leaf, levels, place, piece, faulty, tellings)
        }
        Happened::Closed(length) => tell_list(
            alloc,
            way.leaf,
            place.as_slice(),
            *length as usize,
            tellings,
        ),
        Happened::Passed => tell_fault(alloc, way.leaf, place.as_slice(), tellings),
    }
}
