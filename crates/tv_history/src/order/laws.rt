//! What holds of the definitions alone: each law is the clause of a function that does nothing.
ghost use Rattle.tv_history.specs.order.Closings.{OffersReadNoClosing};
ghost use Rattle.tv_history.specs.order.OpenLaws.{ChainIsShort, FewAreStill, GoingIsInside, LimitsAreStated, OpenersRun, OpenIsBusy, OpenIsOneChain, StepsHaveOneLimit, StepsKeepLimits};
ghost use Rattle.tv_history.specs.order.OrderLaws.{InstancesAreInOrder, JobsAreInOrder, OrderIsStrict};
ghost use Rattle.tv_history.specs.order.PartLaws.{MainIsInstance, PartsAreInstances};
ghost use Rattle.tv_history.specs.order.Rows.{OffersKeepInstancesOpen, OrderOfRows, WalksIntoOpenInstance};
ghost use Rattle.tv_history.specs.order.RowsOfRoom.{KeepsResultOfFirstJob, KeepsResultsOfOpenInstances};
ghost use Rattle.tv_history.specs.order.WalkLaws.{FewAreEntered, FirstGoingIsFound, FirstGoingIsOffered, FirstOfferedIsFound, GoingIsPlain, NothingGoesOnAtEnd, OwnAreHeld};

pub mod offers;

/// The jobs of a meaning, and those of each instance, stand in job order, which is strict.
pub fn job_order()
    ensures ordered { JobsAreInOrder }
    ensures strict { OrderIsStrict }
    ensures instances { InstancesAreInOrder }
    ensures rows { OrderOfRows }
{}

/// Walking down from the main instance finds the first ask that is offered, and the first job that goes on.
pub fn first_in_order()
    ensures offered { FirstOfferedIsFound }
    ensures going { FirstGoingIsFound }
    ensures plain { GoingIsPlain }
    ensures handing { FirstGoingIsOffered }
    ensures held { OwnAreHeld }
    ensures row { WalksIntoOpenInstance }
{}

/// Where jobs go on, and that a job whose flow is open doesn't.
pub fn open_instances()
    ensures openers { OpenersRun }
    ensures inside { GoingIsInside }
    ensures ended { NothingGoesOnAtEnd }
{}

/// Of a step at most as many jobs run in an instance as the step says, and at most as many have an open flow.
pub fn limits()
    ensures kept { StepsKeepLimits }
    ensures one { StepsHaveOneLimit }
    ensures stated { LimitsAreStated }
{}

/// With one worker the open instances are one chain of nested jobs.
pub fn one_chain()
    ensures nested { OpenIsOneChain }
    ensures short { ChainIsShort }
{}

/// Open instances in which nothing goes on are few, and so are those that the walk enters. It isn't so that the open
/// instances are few for each try that is out: the worked row has three of them and no try.
pub fn few_are_still()
    ensures busy { OpenIsBusy }
    ensures few { FewAreStill }
    ensures entered { FewAreEntered }
    ensures row { OffersKeepInstancesOpen }
{}

/// Each instance inside a meaning is that of a flow on inputs.
pub fn parts()
    ensures main { MainIsInstance }
    ensures opened { PartsAreInstances }
{}

/// What the meaning offers reads no closing: the history without the lists that were closed and the faults that were
/// passed offers the same.
pub fn offers_read_no_closing()
    ensures { OffersReadNoClosing }
{}

/// The results that a run keeps and the nodes for which it has room, on worked histories with tries out and flows open.
pub fn rows_of_room()
    ensures steps { KeepsResultOfFirstJob }
    ensures instances { KeepsResultsOfOpenInstances }
{}
