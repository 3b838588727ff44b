/// How many jobs a run had, and how they ended.
#[derive(Clone, Copy, Debug, PartialEq, Eq, Drop)]
pub struct Totals {
    /// Outcomes of services that were accepted.
    pub attempts: u64,
    /// Jobs that bounced, since an input held an error.
    pub bounced: u64,
    /// Jobs that failed, since no outcome was right.
    pub failed: u64,
    /// All jobs, nested ones included.
    pub jobs: u64,
}
