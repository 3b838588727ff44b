//! A job given its result.
ghost use Rattle.std.specs.Prelude.{IfOk};
ghost use Rattle.tv_value.specs.Values.{Name};
ghost use Rattle.tv_flow.specs.Flows.{Step};
ghost use Rattle.tv_cell.specs.PieceValues.{piece_values};
ghost use Rattle.tv_cell.specs.Soundness.{AreSound};
ghost use Rattle.tv_model.specs.instance.Events.{gave};
ghost use Rattle.tv_instances.specs.FramingViews.{View};
ghost use Rattle.tv_frame.specs.Prepared.{MayGive};
ghost use Rattle.tv_seats.specs.Seats.{Seat, with_stage};
ghost use Rattle.tv_seats.specs.declared.stage.Stage.TheVariants.{Settled as ASettled};
ghost use Rattle.tv_instances.specs.Forest.{Instance, Instances};
ghost use Rattle.tv_run.specs.Changes.{IsReadyIn, IsSeatHere, MayBeBouncedIn, MayBeGivenIn, TellsIn};
ghost use Rattle.tv_run.specs.Rooms.{IsAsBefore};

use crate::run::OpenRun;
use tv_cell::Pieces;
use tv_instances::Spot;
use tv_value::NoMemory;

impl OpenRun {
    /// Takes all the room that the result of a job of an open instance needs, with its entry. Answers where it goes.
    #[inline(always)]
    pub(crate) fn room_for_result(
        &mut self,
        instance: u64,
        number: u64,
        pieces: &Pieces,
    ) -> Result<Spot, NoMemory>
        requires may { (xs : Instances) × (x : Instance) × (v : View) × (s : Seat)
            × (t : Name × Step)
            × IsSeatHere self.old xs instance x v number s t
            × MayGive v t s.place (piece_values pieces.now) }
        requires sound { AreSound pieces.now }
        ensures same { IsAsBefore self.old self.new }
        ensures ready { IfOk result (λ p. (xs : Instances) (x : Instance) (v : View) (s : Seat)
            (t : Name × Step)
            → IsSeatHere self.old xs instance x v number s t
            → MayGive v t s.place (piece_values pieces.now)
            → IsReadyIn self.new instance v s t (piece_values pieces.now) p) }
    {
        let plan = self.run.flow(self.instances[instance as usize].flow);
        let open = &mut self.instances[instance as usize].open[0];
        let spot = open.room_for_result(self.alloc, plan, &mut self.pool, number, pieces)?;
        self.reserve_in(instance, spot.more)?;
        Ok(spot)
    }

    /// A job that runs is settled with these. Takes no memory.
    #[inline(always)]
    pub(crate) fn give(&mut self, instance: u64, number: u64, spot: Spot, pieces: Pieces)
        requires may { (xs : Instances) × (x : Instance) × (v : View) × (s : Seat)
            × (t : Name × Step)
            × MayBeGivenIn self.old xs instance x v number s t (piece_values pieces) spot }
        requires sound { AreSound pieces }
        ensures { (xs : Instances) (x : Instance) (v : View) (s : Seat) (t : Name × Step)
            → MayBeGivenIn self.old xs instance x v number s t (piece_values pieces) spot
            → TellsIn self.old self.new xs instance x v
            (gave t.0 s.place (piece_values pieces)) spot.more
            (with_stage number ASettled x.seats) }
    {
        let plan = self.run.flow(self.instances[instance as usize].flow);
        self.instances[instance as usize].open[0].give(plan, &mut self.pool, number, spot, pieces);
        self.follow(instance);
    }

    /// A job that waits, and is ready, is settled with these: it is bounced. Takes no memory.
    pub(crate) fn give_bounced(&mut self, instance: u64, number: u64, spot: Spot, pieces: Pieces)
        requires may { (xs : Instances) × (x : Instance) × (v : View) × (s : Seat)
            × (t : Name × Step)
            × MayBeBouncedIn self.old xs instance x v number s t (piece_values pieces) spot }
        requires sound { AreSound pieces }
        ensures { (xs : Instances) (x : Instance) (v : View) (s : Seat) (t : Name × Step)
            → MayBeBouncedIn self.old xs instance x v number s t (piece_values pieces) spot
            → TellsIn self.old self.new xs instance x v
            (gave t.0 s.place (piece_values pieces)) spot.more
            (with_stage number ASettled x.seats) }
    {
        let plan = self.run.flow(self.instances[instance as usize].flow);
        self.instances[instance as usize].open[0].bounce(
            plan,
            &mut self.pool,
            number,
            spot,
            pieces,
        );
        self.due -= 1;
        self.follow(instance);
    }
}
