//! Partial trees, event by event.
ghost use Rattle.tv_pool.specs.Pool.{IsLive};
ghost use Rattle.tv_stream.specs.Stands.{Stands, IsIn};

use std::alloc::Global;
use std::fmt::Write;
use std::test::Fail;
use tv_pool::{Pool, Region};
use tv_stream::{Partial, Slot};
use tv_value::Place;

/// What is done to a tree at a place: an item arrives there, the list that stands there is closed with this length, or what stands
/// there is looked at.
enum Event {
    Arrive(u64),
    Close(u32),
    Look,
}

type Step = (&'static [u32], Event);

/// Does it, and says what came of it: the least length of a prefix that is whole by it, or the refusal, with the item that is given
/// back; of a look the kind, the item, whether it is whole, and whether something marked is there.
fn tell(
    alloc: Global,
    pool: &mut Pool<Slot<u64>>,
    region: &Region,
    tree: &mut Partial<u64>,
    step: &Step,
    said: &mut String,
) -> Result<(), Fail>
    requires live { IsLive pool.old region.now }
    requires region { IsIn tree.old region.now }
    requires stands { Stands pool.old tree.old }
    ensures live { IsLive pool.new region.now }
    ensures region { IsIn tree.new region.now }
    ensures stands { Stands pool.new tree.new }
{
    let place = Place::of(alloc, step.0)?;
    let told = match step.1 {
        Event::Arrive(item) => {
            let came = tree.arrive_marked(pool, region, &place, item, item == 9);
            write!(said, "{came:?}; ")
        }
        Event::Close(length) => {
            let came = tree.close_whole(pool, region, &place, length);
            write!(said, "{came:?}; ")
        }
        Event::Look => {
            let (kind, item) = (tree.kind_at(pool, &place), tree.item_at(pool, &place));
            let (whole, marked) = (tree.whole_at(pool, &place), tree.marked_at(pool, &place));
            write!(said, "{kind:?} {item:?} {whole} {marked}; ")
        }
    };
    Ok(told?)
}

/// All events in their order.
fn follow(
    alloc: Global,
    pool: &mut Pool<Slot<u64>>,
    region: &Region,
    tree: &mut Partial<u64>,
    steps: &[Step],
    said: &mut String,
) -> Result<(), Fail>
    requires live { IsLive pool.old region.now }
    requires region { IsIn tree.old region.now }
    requires stands { Stands pool.old tree.old }
    ensures { Stands pool.new tree.new }
{
    for next in steps {
        tell(alloc, pool, region, tree, next, said)?;
    }
    Ok(())
}

/// All events in their order on a new tree.
fn run(alloc: Global, depth: u32, steps: &[Step], said: &mut String) -> Result<(), Fail> {
    let mut pool = Pool::new(alloc);
    let region = pool.begin()?;
    let mut tree: Partial<u64> = Partial::start(&mut pool, &region, depth)?;
    follow(alloc, &mut pool, &region, &mut tree, steps, said)
}

const OUT_OF_ORDER: [Step; 6] = [
    (&[1], Event::Arrive(5)),
    (&[0], Event::Arrive(7)),
    (&[], Event::Close(2)),
    (&[], Event::Close(2)),
    (&[0], Event::Arrive(8)),
    (&[2], Event::Arrive(8)),
];

const TOO_SHORT: [Step; 4] = [
    (&[1], Event::Arrive(5)),
    (&[], Event::Close(1)),
    (&[], Event::Close(2)),
    (&[0], Event::Arrive(7)),
];

// Inner lists that are closed before and after their parts come, an empty one, and a fault in a list's place.
const IN_LISTS: [Step; 13] = [
    (&[2, 1], Event::Arrive(5)),
    (&[2, 1, 0], Event::Arrive(5)),
    (&[2, 1], Event::Close(0)),
    (&[2], Event::Arrive(5)),
    (&[], Event::Close(3)),
    (&[3, 0], Event::Close(0)),
    (&[3, 0], Event::Arrive(1)),
    (&[0], Event::Close(0)),
    (&[1], Event::Arrive(9)),
    (&[1, 0], Event::Arrive(1)),
    (&[1], Event::Close(0)),
    (&[2], Event::Close(2)),
    (&[2, 0], Event::Arrive(6)),
];

const MARKED_INSIDE: [Step; 7] = [
    (&[1, 0], Event::Arrive(9)),
    (&[1], Event::Close(1)),
    (&[], Event::Look),
    (&[0], Event::Look),
    (&[1], Event::Look),
    (&[1, 0], Event::Look),
    (&[1, 1], Event::Look),
];

/// The depths of trees, what is done to them, and what is said.
const CASES: [(u32, &[Step], &str); 4] = [
    (
        1,
        &OUT_OF_ORDER,
        "Ok(1); Ok(1); Ok(Some(0)); Err(AlreadyClosed); Err(Occupied(8)); Err(NoSuchPlace(8)); ",
    ),
    (
        1,
        &TOO_SHORT,
        "Ok(1); Err(WrongLength { asked: 1, needed: 2 }); Ok(None); Ok(0); ",
    ),
    (
        2,
        &IN_LISTS,
        "Ok(2); Err(NoSuchPlace(5)); Err(NoSuchPlace); Err(Occupied(5)); Ok(None); Err(NoSuchPlace); Err(NoSuchPlace(1)); Ok(Some(1)); Ok(1); Err(NoSuchPlace(1)); Err(NoSuchPlace); Ok(None); Ok(0); ",
    ),
    (
        2,
        &MARKED_INSIDE,
        "Ok(2); Ok(Some(1)); Growing None false true; Wanting None false false; Closed(1) None true true; Item Some(9) true true; Wanting None false false; ",
    ),
];

#[test]
fn trees_grow_event_by_event(rt: HostRuntime) -> Result<(), Fail> {
    for (depth, steps, due) in CASES {
        let mut said = String::new(rt.alloc());
        run(rt.alloc(), depth, steps, &mut said)?;
        assert_eq!(rt; said.as_str(), due);
    }
    Ok(())
}
