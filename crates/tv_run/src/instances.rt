//! The instances of a run, and its jobs by number.
ghost use Rattle.std.specs.Prelude.{◌≡◌, ◌<◌, ◌∷◌, [], IfSome, IsNone, length};
ghost use Rattle.tv_seats.specs.Seats.{place_at, step_at};
ghost use Rattle.tv_run.specs.Standing.{seats_of};

use tv_instances::Open;
use tv_seats::Past;

/// An instance that was opened.
#[derive(Drop)]
pub(crate) struct Instance {
    // The number of its flow.
    pub(crate) flow: u32,
    // The job that opened it, of the main instance none.
    pub(crate) opener: Option<u64>,
    // While it is open, of each job that it knows its number in the run.
    pub(crate) jobs: Vec<u64>,
    // It stands among those in which something may be settled.
    pub(crate) is_busy: bool,
    // Itself, while it is open.
    pub(crate) open: Vec<Open>,
    // The seats of its jobs, once it has ended.
    pub(crate) seats: Option<Past>,
}

/// A job: its instance, and its number there.
#[derive(Clone, Copy, Debug)]
pub(crate) struct Numbered {
    pub(crate) instance: u64,
    pub(crate) number: u64,
}

impl Instance {
    /// Itself, while it is open.
    pub(crate) fn opened(&self) -> Option<&Open>
        ensures none { IsNone result → self.now.open.items ≡ [] }
        ensures some { IfSome result (λ o. (os : _) × (self.now.open.items ≡ o.now ∷ os)) }
    {
        self.open.as_slice().first()
    }

    /// The step of a job, by its number in the flow.
    pub(crate) fn step(&self, number: u64) -> u32
        requires { number < length (seats_of self.now) }
        ensures { result ≡ step_at (seats_of self.now) number }
    {
        match self.opened() {
            Some(open) => open.step(number),
            None => match &self.seats {
                Some(seats) => seats.step(number as usize),
                None => unreachable!(),
            },
        }
    }

    /// The place of a job.
    pub(crate) fn place(&self, number: u64) -> &[u32]
        requires { number < length (seats_of self.now) }
        ensures { result.now ≡ place_at (seats_of self.now) number }
    {
        match self.opened() {
            Some(open) => open.place(number),
            None => match &self.seats {
                Some(seats) => seats.place(number as usize),
                None => unreachable!(),
            },
        }
    }
}
