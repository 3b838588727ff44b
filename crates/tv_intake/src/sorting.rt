//! What is new of a matcher, sorted.
ghost use Rattle.std.specs.Prelude.{◌≡◌, ◌++◌, ◌∷◌, [], ◌+◌, ◌-◌, ◌<◌, ◌≤◌, not, count_by, drop, length, vec_capacity, vec_len};
ghost use Rattle.tv_match.specs.Ahead.{in_order_ahead};
ghost use Rattle.tv_match.specs.Seen.{IsSound, matching};
ghost use Rattle.tv_matching.specs.Matchers.{CanTellAll};
ghost use Rattle.tv_intake.specs.Sorting.{faulty_ahead, faulty_count, found_jobs, found_others, good_count, if_job, if_other, job_count, job_places, jobs_among};

use crate::found::Found;
use tv_match::{Kind, Matcher};

/// Puts one thing more into a list that has room for it.
pub(crate) fn put<T: Drop>(list: &mut Vec<T>, item: T)
    requires { vec_len list.old < vec_capacity list.old }
    ensures items { list.new.items ≡ list.old.items ++ item ∷ [] }
    ensures len { vec_len list.new ≡ vec_len list.old + 1 }
    ensures capacity { vec_capacity list.old ≤ vec_capacity list.new }
{
    list.push_reserved(item);
}

/// Puts a thing into the list for its kind.
fn sort_one(kind: Kind, found: Found, jobs: &mut Vec<Found>, waiting: &mut Vec<Found>)
    requires jobs_room { vec_len jobs.old < vec_capacity jobs.old }
    requires waiting_room { vec_len waiting.old < vec_capacity waiting.old }
    ensures jobs { jobs.new.items ≡ jobs.old.items ++ if_job kind found }
    ensures waiting { waiting.new.items ≡ waiting.old.items ++ if_other kind found }
    ensures jobs_len { vec_len jobs.new ≤ vec_len jobs.old + 1 }
    ensures waiting_len { vec_len waiting.new ≤ vec_len waiting.old + 1 }
    ensures jobs_capacity { vec_capacity jobs.old ≤ vec_capacity jobs.new }
    ensures waiting_capacity { vec_capacity waiting.old ≤ vec_capacity waiting.new }
{
    match kind {
        Kind::Job { .. } => put(jobs, found),
        Kind::Closed(_) => put(waiting, found),
        Kind::Passed(_) => put(waiting, found),
    }
}

/// How many jobs that is.
fn one_if_job(kind: Kind) -> usize
    ensures { result ≡ job_count kind }
{
    match kind {
        Kind::Job { .. } => 1,
        Kind::Closed(_) => 0,
        Kind::Passed(_) => 0,
    }
}

/// Sorts what a matcher has from a position on, of the step with this number. Takes no memory.
pub(crate) fn sort_from(
    matcher: &Matcher,
    step: u32,
    from: usize,
    jobs: &mut Vec<Found>,
    waiting: &mut Vec<Found>,
)
    requires jobs_room { vec_len jobs.old + (length (in_order_ahead matcher.now) - from)
        ≤ vec_capacity jobs.old }
    requires waiting_room { vec_len waiting.old + (length (in_order_ahead matcher.now) - from)
        ≤ vec_capacity waiting.old }
    ensures jobs { jobs.new.items ≡ jobs.old.items
        ++ found_jobs step from (drop from (in_order_ahead matcher.now)) }
    ensures waiting { waiting.new.items ≡ waiting.old.items
        ++ found_others step from (drop from (in_order_ahead matcher.now)) }
    ensures jobs_len { vec_len jobs.new ≤ vec_len jobs.old + (length (in_order_ahead matcher.now)
        - from) }
    ensures waiting_len { vec_len waiting.new ≤ vec_len waiting.old
        + (length (in_order_ahead matcher.now) - from) }
    ensures jobs_capacity { vec_capacity jobs.old ≤ vec_capacity jobs.new }
    ensures waiting_capacity { vec_capacity waiting.old ≤ vec_capacity waiting.new }
{
    for at in from..matcher.ahead() {
        let (_place, kind) = matcher.item_ahead(at);
        sort_one(kind, Found { step, at }, jobs, waiting);
    }
}

/// How many jobs a matcher has from a position on.
pub(crate) fn count_jobs(matcher: &Matcher, from: usize) -> usize
    ensures exact { result ≡ jobs_among (drop from (in_order_ahead matcher.now)) }
    ensures within { result ≤ length (in_order_ahead matcher.now) - from }
{
    let mut count = 0;
    for at in from..matcher.ahead() {
        let (_place, kind) = matcher.item_ahead(at);
        count += one_if_job(kind);
    }
    count
}

/// Of one thing, how many jobs that are that bind no fault, and how many that bind one.
fn one_of_each(kind: Kind) -> (usize, usize)
    ensures good { result.0 ≡ good_count kind }
    ensures faulty { result.1 ≡ faulty_count kind }
{
    match kind {
        Kind::Job { faulty: true } => (0, 1),
        Kind::Job { faulty: false } => (1, 0),
        Kind::Closed(_) => (0, 0),
        Kind::Passed(_) => (0, 0),
    }
}

/// How many jobs a matcher has from a position on that bind no fault, and how many that bind one.
pub(crate) fn count_each(matcher: &Matcher, from: usize) -> (usize, usize)
    requires sound { IsSound matcher.now }
    requires can { CanTellAll (matching matcher.now) (matching matcher.now).held }
    ensures good { result.0 ≡ count_by (λ q. not (faulty_ahead matcher.now q))
        (job_places (drop from (in_order_ahead matcher.now))) }
    ensures faulty { result.1 ≡ count_by (faulty_ahead matcher.now)
        (job_places (drop from (in_order_ahead matcher.now))) }
{
    let mut good = 0;
    let mut faulty = 0;
    for at in from..matcher.ahead() {
        let (_place, kind) = matcher.item_ahead(at);
        let (more_good, more_faulty) = one_of_each(kind);
        good += more_good;
        faulty += more_faulty;
    }
    (good, faulty)
}
