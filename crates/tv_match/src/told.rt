use tv_value::{Place, Sequence};

/// A telling.
#[derive(Debug, Drop)]
pub enum Told {
    /// A bound value of which nobody says that it holds a fault, or a fault on the way there.
    Arrival {
        leaf: u32,
        place: Place,
        fault: bool,
    },
    /// A bound value that holds a fault.
    Faulty {
        leaf: u32,
        place: Place,
    },
    /// A list on the way, with its length.
    Close {
        leaf: u32,
        place: Place,
        length: u32,
    },
}

/// Tellings, in their order.
pub type Tolds = Sequence<Told>;

/// What comes out.
#[derive(Debug, Drop)]
pub enum Matched {
    /// A job, with its place.
    Job(Place),
    /// A list, with its place and its length.
    Closed(Place, u32),
    /// A passed fault, with its place and the number of the leaf whose fault stands there.
    Passed(Place, u32),
}
