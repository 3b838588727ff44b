/// Where a job, list or passed fault stands.
#[derive(Clone, Copy, Debug)]
pub struct Found {
    /// The number of its step.
    pub step: u32,
    /// Its position among what follows there.
    pub at: usize,
}
