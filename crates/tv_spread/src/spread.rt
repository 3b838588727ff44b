//! An event spread: held, and then shown.
ghost use Rattle.std.specs.Prelude.{◌≡◌, ◌++◌, ◌+◌, ℕ, ◌<◌, ◌≤◌, [], true, false, filter, length, map, IfOk, OnOk};
ghost use Rattle.tv_lemmas.specs.Members.{Each};
ghost use Rattle.tv_matching.specs.Items.{if_so};
ghost use Rattle.tv_telling.specs.Views.{HasOutput};
ghost use Rattle.tv_pool.specs.declared.handles.Region.{Region as InRegion};
ghost use Rattle.tv_outputs.specs.Kept.{Stand};
ghost use Rattle.tv_intake.specs.Intaken.{AreIntaken, CanShow, OthersStay, known_jobs, matcher_at, waiting_things};
ghost use Rattle.tv_idle.specs.Idles.{of_step};
ghost use Rattle.tv_telling.specs.Along.{is_walked, way_of};
ghost use Rattle.tv_spread.specs.Arounds.{IsAround, IsFed, ports_at, tellings_by, tells_some, told_steps, ways_at, wholes_at};
ghost use Rattle.tv_spread.specs.Spreads.{CanHoldThese, CanHoldTold, CanShowAll, HasOtherRooms, HoldTold, HoldsAt, IsLevelled, MakeAll, StaysAt, binds_fault, new_count, new_faulty, new_good, new_jobs, new_things, with_all_new};

use crate::adding::add_known;
use crate::around::{Around, push_wholes};
use crate::wires::{push_ways, run_length, wires_along};
use std::alloc::Global;
use std::mem;
use tv_check::Wire;
use tv_idle::Idle;
use tv_intake::Intakes;
use tv_match::Tolds;
use tv_telling::{Event, Way, Whole, tellings_with};
use tv_value::{NoMemory, Sequence};

/// What is told with an event, step by step: working room, and the steps that hold it.
#[derive(Drop)]
pub struct Spread {
    // The steps that were told something by the last call of `hold`.
    touched: Vec<u32>,
    // What the step that is looked at is told.
    ways: Vec<Way>,
    whole: Vec<Whole>,
    // The room of what the last step was told, and of a place.
    told: Tolds,
    place: Vec<u32>,
}

impl Spread {
    /// That holds nothing. Takes no memory.
    pub fn new(alloc: Global) -> Spread
        ensures { result.touched.items ≡ [] }
    {
        Spread {
            touched: Vec::new(alloc),
            ways: Vec::new(alloc),
            whole: Vec::new(alloc),
            told: Sequence::empty(alloc),
            place: Vec::new(alloc),
        }
    }

    /// Has the matcher of each step that an event's step feeds work ahead what it is told with the event, takes all room that
    /// showing it needs, and answers how many jobs become known with it.
    ///
    /// What a step that is told something held before is let go. Where it is refused, some of these
    /// steps may hold what they are told, or nothing, and some rooms may be taken; all else is as
    /// before. Costs the wires from the step into ports that walk some levels, and what is told along
    /// them; where the event makes the step whole, all wires from the step, and the links of the
    /// ports of the steps that they feed.
    pub fn hold(
        &mut self,
        alloc: Global,
        around: &Around,
        intakes: &mut Intakes,
        idle: &mut Idle,
        step: u32,
        event: &Event,
    ) -> Result<u64, NoMemory>
        requires around { IsAround around.now step event.now }
        requires sound { AreIntaken intakes.old }
        requires can { CanHoldTold around.now step event.now intakes.old }
        requires levels { (c : ℕ)
            → IsLevelled (matcher_at intakes.old c) (of_step idle.old.steps c) }
        requires steps { length around.now.wiring.now.ports ≤ length idle.old.steps }
        ensures touched { OnOk result (self.new.touched.items
            ≡ told_steps around.now step event.now) }
        ensures held { OnOk result (HoldTold around.now step event.now intakes.old intakes.new) }
        ensures count { IfOk result (λ n. n
            ≡ new_count intakes.new (told_steps around.now step event.now)) }
        ensures ready { OnOk result (CanShowAll (told_steps around.now step event.now) intakes.new
            idle.new) }
        ensures stays { (c : ℕ) → StaysAt (matcher_at intakes.old c) (matcher_at intakes.new c) }
        ensures jobs { known_jobs intakes.new ≡ known_jobs intakes.old }
        ensures waiting { waiting_things intakes.new ≡ waiting_things intakes.old }
        ensures intaken { AreIntaken intakes.new }
        ensures idle { HasOtherRooms idle.old idle.new }
    {
        self.tell_all(alloc, around, intakes, step, event)?;
        let jobs = intakes.make_room(self.touched.as_slice())?;
        self.reserve_idle(intakes, idle)?;
        idle.reserve_numbers(jobs as usize)?;
        Ok(jobs)
    }

    /// Has the matcher of each step hold what it is told.
    fn tell_all(
        &mut self,
        alloc: Global,
        around: &Around,
        intakes: &mut Intakes,
        step: u32,
        event: &Event,
    ) -> Result<(), NoMemory>
        requires around { IsAround around.now step event.now }
        requires sound { AreIntaken intakes.old }
        requires can { CanHoldTold around.now step event.now intakes.old }
        ensures touched { OnOk result (self.new.touched.items
            ≡ told_steps around.now step event.now) }
        ensures held { OnOk result (HoldTold around.now step event.now intakes.old intakes.new) }
        ensures stays { (c : ℕ) → StaysAt (matcher_at intakes.old c) (matcher_at intakes.new c) }
        ensures jobs { known_jobs intakes.new ≡ known_jobs intakes.old }
        ensures waiting { waiting_things intakes.new ≡ waiting_things intakes.old }
        ensures intaken { AreIntaken intakes.new }
    {
        self.touched.clear();
        let mut rest = wires_along(around, step, event);
        while let Some(first) = rest.first() {
            let to = first.step;
            let (run, others) = rest.split_at(run_length(rest, to));
            self.find(around, to, run, step, event)?;
            self.hold_found(alloc, intakes, to, event)?;
            rest = others;
        }
        Ok(())
    }

    /// Finds what a step is told, from the wires into it.
    fn find(
        &mut self,
        around: &Around,
        to: u32,
        wires: &[Wire],
        step: u32,
        event: &Event,
    ) -> Result<(), NoMemory>
        requires stand { (region : InRegion)
            × Stand around.now.pool.now around.now.outputs.now region }
        requires to { to < length around.now.wiring.now.ports }
        requires fed { Each (λ p. IsFed around.now step event.now p.feed) (ports_at around.now to) }
        requires wires { map way_of (filter is_walked wires.now) ≡ ways_at around.now step to }
        ensures ways { OnOk result (self.new.ways.items ≡ ways_at around.now step to) }
        ensures whole { OnOk result (self.new.whole.items ≡ wholes_at around.now step event.now
            to) }
        ensures touched { self.new.touched ≡ self.old.touched }
    {
        self.ways.clear();
        push_ways(wires, &mut self.ways)?;
        self.whole.clear();
        let ports = around.wiring.ports.as_slice()[to as usize].as_slice();
        push_wholes(around, ports, step, event, &mut self.whole)
    }

    /// Has a step's matcher hold what was found, where that is something.
    fn hold_found(
        &mut self,
        alloc: Global,
        intakes: &mut Intakes,
        to: u32,
        event: &Event,
    ) -> Result<(), NoMemory>
        requires sound { AreIntaken intakes.old }
        requires outputs { Each (λ w. HasOutput event.now w.output) self.old.ways.items }
        requires can { tells_some self.old.ways.items self.old.whole.items ≡ true
            → CanHoldThese (tellings_by event.now self.old.ways.items self.old.whole.items)
            (matcher_at intakes.old to) }
        ensures touched { OnOk result (self.new.touched.items ≡ self.old.touched.items
            ++ if_so (tells_some self.old.ways.items self.old.whole.items) to) }
        ensures held { OnOk result (tells_some self.old.ways.items self.old.whole.items ≡ true
            → HoldsAt (tellings_by event.now self.old.ways.items self.old.whole.items)
            (matcher_at intakes.old to) (matcher_at intakes.new to)) }
        ensures can { OnOk result (tells_some self.old.ways.items self.old.whole.items ≡ true
            → CanShow (matcher_at intakes.new to)) }
        ensures same { tells_some self.old.ways.items self.old.whole.items ≡ false
            → matcher_at intakes.new to ≡ matcher_at intakes.old to }
        ensures stays { StaysAt (matcher_at intakes.old to) (matcher_at intakes.new to) }
        ensures others { OthersStay to intakes.old intakes.new }
        ensures jobs { known_jobs intakes.new ≡ known_jobs intakes.old }
        ensures waiting { waiting_things intakes.new ≡ waiting_things intakes.old }
        ensures intaken { AreIntaken intakes.new }
    {
        if self.ways.is_empty() && self.whole.is_empty() {
            return Ok(());
        }
        let before = mem::replace(&mut self.told, Sequence::empty(alloc));
        let told = tellings_with(
            alloc,
            self.ways.as_slice(),
            self.whole.as_slice(),
            event,
            before,
            &mut self.place,
        )?;
        let _things = intakes.hold(to, &told)?;
        self.told = told;
        self.touched.push(to)?;
        Ok(())
    }

    /// Takes the rooms of idle jobs for those that the steps hold.
    fn reserve_idle(&self, intakes: &Intakes, idle: &mut Idle) -> Result<(), NoMemory>
        requires sound { AreIntaken intakes.now }
        requires can { Each (λ c. CanShow (matcher_at intakes.now c)) self.now.touched.items }
        requires within { Each (λ c. c < length idle.old.steps) self.now.touched.items }
        ensures good { OnOk result (Each (λ c. (of_step idle.new.steps c).good_room
            ≡ new_good intakes.now c) self.now.touched.items) }
        ensures faulty { OnOk result (Each (λ c. (of_step idle.new.steps c).faulty_room
            ≡ new_faulty intakes.now c) self.now.touched.items) }
        ensures rooms { HasOtherRooms idle.old idle.new }
    {
        for step in &self.touched {
            let (good, faulty) = intakes.new_jobs(*step);
            idle.reserve(*step, good, faulty)?;
        }
        Ok(())
    }

    /// Shows what the touched steps hold: the new jobs are known and idle, by the order of the steps, and then by the order in
    /// which they follow there; lists and passed faults wait. Takes no memory. Costs what is held.
    pub fn show(&self, intakes: &mut Intakes, idle: &mut Idle)
        requires sound { AreIntaken intakes.old }
        requires ready { CanShowAll self.now.touched.items intakes.old idle.old }
        ensures made { MakeAll self.now.touched.items intakes.old intakes.new }
        ensures jobs { known_jobs intakes.new ≡ known_jobs intakes.old
            ++ new_jobs intakes.old self.now.touched.items }
        ensures waiting { waiting_things intakes.new ≡ waiting_things intakes.old
            ++ new_things intakes.old self.now.touched.items }
        ensures idle { idle.new
            ≡ with_all_new (binds_fault intakes.old)
            (new_jobs intakes.old self.now.touched.items) idle.old }
        ensures sound { AreIntaken intakes.new }
    {
        for step in &self.touched {
            let known = intakes.known();
            intakes.show(*step);
            add_known(intakes, idle, *step, known);
        }
    }
}
