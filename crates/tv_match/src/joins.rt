ghost use Rattle.std.specs.Prelude.{◌≡◌, ◌<◌, ◌++◌, ◌∷◌, [], length, map, drop, take, OnOk};
ghost use Rattle.tv_matching.specs.Items.{if_so};
ghost use Rattle.tv_matching.specs.Matched.{same, bound as also_bound, below, crossed_items, below_jobs, meet_kinds as both_met};
ghost use Rattle.tv_matching.specs.Stores.{key_of, only_jobs, met_by_first, met_by_second};
ghost use Rattle.tv_match.specs.Entries.{kepts, kept_entry, kind_view, entry_at, AreMore};
ghost use Rattle.tv_match.specs.Brief.{brief_kind, briefs};

use crate::bags::Bag;
use crate::found::Found;
use crate::grouped::{Grouped, first_indices};
use crate::kinds::Kind;
use tv_value::NoMemory;

/// What stands below a job that binds this.
fn bound(faulty: bool, kind: Kind) -> Kind
    ensures { kind_view result ≡ brief_kind (also_bound (if_so faulty tt) (kind_view kind)) }
{
    match kind {
        Kind::Job { faulty: other } => Kind::Job {
            faulty: faulty || other,
        },
        other => other,
    }
}

/// Puts what stands below a job at a place. Linear in what it puts.
pub fn push_below(
    at: &[u32],
    faulty: bool,
    ys: &Bag,
    number: usize,
    out: &mut Bag,
) -> Result<(), NoMemory>
    ensures ok { OnOk result (kepts out.new ≡ kepts out.old
        ++ briefs (map (below at.now (if_so faulty tt)) (kepts ys.now))) }
    ensures more { AreMore number out.old out.new }
{
    for i in 0..ys.len() {
        out.push(at, ys.place(i), bound(faulty, ys.kind(i)), number)?;
    }
    Ok(())
}

/// Puts what stands in a cross in the place of an item of its first child, where the second child has these.
fn push_replaced(
    xs: &Bag,
    at: usize,
    ys: &Bag,
    number: usize,
    out: &mut Bag,
) -> Result<(), NoMemory>
    requires { at < length xs.now }
    ensures ok { OnOk result (kepts out.new ≡ kepts out.old
        ++ briefs (crossed_items (kept_entry (entry_at xs.now at) ∷ []) (kepts ys.now))) }
    ensures more { AreMore number out.old out.new }
{
    match xs.kind(at) {
        Kind::Job { faulty } => push_below(xs.place(at), faulty, ys, number, out),
        Kind::Closed(length) => out.push(xs.place(at), &[], Kind::Closed(length), number),
        Kind::Passed(leaf) => out.push(xs.place(at), &[], Kind::Passed(leaf), number),
    }
}

/// Puts the cross of the first child's new items with what the second child had. Linear in what it puts.
pub fn push_crossed(xs: &Bag, ys: &Bag, number: usize, out: &mut Bag) -> Result<(), NoMemory>
    ensures ok { OnOk result (kepts out.new ≡ kepts out.old
        ++ briefs (crossed_items (kepts xs.now) (kepts ys.now))) }
    ensures more { AreMore number out.old out.new }
{
    for i in 0..xs.len() {
        push_replaced(xs, i, ys, number, out)?;
    }
    Ok(())
}

/// Puts the part of a cross that stands below one of these items, if it is a job.
fn push_below_one(
    es: &Bag,
    at: usize,
    ys: &Bag,
    number: usize,
    out: &mut Bag,
) -> Result<(), NoMemory>
    requires { at < length es.now }
    ensures ok { OnOk result (kepts out.new ≡ kepts out.old
        ++ briefs (below_jobs (kept_entry (entry_at es.now at) ∷ []) (kepts ys.now))) }
    ensures more { AreMore number out.old out.new }
{
    match es.kind(at) {
        Kind::Job { faulty } => push_below(es.place(at), faulty, ys, number, out),
        _ => Ok(()),
    }
}

/// Puts the part of a cross that stands below jobs of the first child, with the second child's new items. Linear in what it
/// puts, where the first bag has jobs alone.
pub fn push_below_jobs(es: &Bag, ys: &Bag, number: usize, out: &mut Bag) -> Result<(), NoMemory>
    ensures ok { OnOk result (kepts out.new ≡ kepts out.old
        ++ briefs (below_jobs (kepts es.now) (kepts ys.now))) }
    ensures more { AreMore number out.old out.new }
{
    if ys.len() == 0 {
        return Ok(());
    }
    for i in 0..es.len() {
        push_below_one(es, i, ys, number, out)?;
    }
    Ok(())
}

/// Adds items to others.
pub fn push_all(xs: &Bag, number: usize, out: &mut Bag) -> Result<(), NoMemory>
    ensures ok { OnOk result (kepts out.new ≡ kepts out.old ++ kepts xs.now) }
    ensures more { AreMore number out.old out.new }
{
    for i in 0..xs.len() {
        out.push(xs.place(i), &[], xs.kind(i), number)?;
    }
    Ok(())
}

/// Adds an item to others, if it is a job.
fn push_job(xs: &Bag, at: usize, number: usize, out: &mut Bag) -> Result<(), NoMemory>
    requires { at < length xs.now }
    ensures ok { OnOk result (kepts out.new ≡ kepts out.old
        ++ only_jobs (kept_entry (entry_at xs.now at) ∷ [])) }
    ensures more { AreMore number out.old out.new }
{
    match xs.kind(at) {
        Kind::Job { faulty } => out.push(xs.place(at), &[], Kind::Job { faulty }, number),
        _ => Ok(()),
    }
}

/// Adds the jobs among these items to others.
pub fn push_jobs(xs: &Bag, number: usize, out: &mut Bag) -> Result<(), NoMemory>
    ensures ok { OnOk result (kepts out.new ≡ kepts out.old ++ only_jobs (kepts xs.now)) }
    ensures more { AreMore number out.old out.new }
{
    for i in 0..xs.len() {
        push_job(xs, i, number, out)?;
    }
    Ok(())
}

/// What stands where these two meet in a dot or a prefix node: the first fault stands, lists are zipped to the shorter.
fn met(first: Kind, second: Kind) -> Kind
    ensures { kind_view result ≡ brief_kind (both_met (kind_view first) (kind_view second)) }
{
    match (first, second) {
        (Kind::Job { faulty }, kind) => bound(faulty, kind),
        (Kind::Passed(leaf), _) => Kind::Passed(leaf),
        (Kind::Closed(_), Kind::Job { faulty }) => Kind::Job { faulty },
        (Kind::Closed(m), Kind::Closed(n)) => Kind::Closed(m.min(n)),
        (Kind::Closed(_), Kind::Passed(leaf)) => Kind::Passed(leaf),
    }
}

/// Puts what an item of the first child of a dot meets in the second. A look-up, and linear in what it puts.
fn push_met_first(
    xs: &Bag,
    at: usize,
    ys: &Found,
    number: usize,
    out: &mut Bag,
) -> Result<(), NoMemory>
    requires { at < length xs.now }
    ensures ok { OnOk result (kepts out.new ≡ kepts out.old
        ++ briefs (met_by_first same (kept_entry (entry_at xs.now at) ∷ []) (kepts ys.now))) }
    ensures more { AreMore number out.old out.new }
{
    let place = xs.place(at);
    let kind = xs.kind(at);
    let mut before = ys.bag().len();
    while let Some(found) = ys.latest(place, before) {
        out.push(place, &[], met(kind, ys.bag().kind(found)), number)?;
        before = found;
    }
    Ok(())
}

/// Puts what an item of the first child of a prefix node meets in the second. A look-up, and linear in what it puts.
fn push_met_below(
    xs: &Bag,
    at: usize,
    ys: &Grouped,
    number: usize,
    out: &mut Bag,
) -> Result<(), NoMemory>
    requires { at < length xs.now }
    ensures ok { OnOk result (kepts out.new ≡ kepts out.old
        ++ briefs (met_by_first (take ys.now.depth) (kept_entry (entry_at xs.now at) ∷ [])
        (kepts ys.now.items))) }
    ensures more { AreMore number out.old out.new }
{
    let kind = xs.kind(at);
    let mut next = ys.last(xs.place(at));
    while let Some(found) = next {
        out.push(
            ys.bag().place(found),
            &[],
            met(kind, ys.bag().kind(found)),
            number,
        )?;
        next = ys.before(found);
    }
    Ok(())
}

/// By which place of the first child an item of the second is met: by its own in a dot, by so many of its first indices in a
/// prefix node.
fn key(place: &[u32], depth: Option<usize>) -> &[u32]
    ensures { result.now ≡ key_of depth place.now }
{
    match depth {
        None => place,
        Some(depth) => first_indices(place, depth),
    }
}

/// Puts what an item of the second child meets in the first. A look-up, and linear in what it puts.
fn push_met_second(
    xs: &Found,
    ys: &Bag,
    at: usize,
    depth: Option<usize>,
    number: usize,
    out: &mut Bag,
) -> Result<(), NoMemory>
    requires { at < length ys.now }
    ensures ok { OnOk result (kepts out.new ≡ kepts out.old ++ briefs (met_by_second (key_of depth)
        (kepts xs.now) (kept_entry (entry_at ys.now at) ∷ []))) }
    ensures more { AreMore number out.old out.new }
{
    let place = ys.place(at);
    let kind = ys.kind(at);
    let key = key(place, depth);
    let mut before = xs.bag().len();
    while let Some(found) = xs.latest(key, before) {
        out.push(place, &[], met(xs.bag().kind(found), kind), number)?;
        before = found;
    }
    Ok(())
}

/// Puts what the first child's new items meet in a dot.
pub fn push_all_met_first(
    xs: &Bag,
    ys: &Found,
    number: usize,
    out: &mut Bag,
) -> Result<(), NoMemory>
    ensures ok { OnOk result (kepts out.new ≡ kepts out.old
        ++ briefs (met_by_first same (kepts xs.now) (kepts ys.now))) }
    ensures more { AreMore number out.old out.new }
{
    for i in 0..xs.len() {
        push_met_first(xs, i, ys, number, out)?;
    }
    Ok(())
}

/// Puts what the first child's new items meet in a prefix node.
pub fn push_all_met_below(
    xs: &Bag,
    ys: &Grouped,
    number: usize,
    out: &mut Bag,
) -> Result<(), NoMemory>
    ensures ok { OnOk result (kepts out.new ≡ kepts out.old
        ++ briefs (met_by_first (take ys.now.depth) (kepts xs.now) (kepts ys.now.items))) }
    ensures more { AreMore number out.old out.new }
{
    for i in 0..xs.len() {
        push_met_below(xs, i, ys, number, out)?;
    }
    Ok(())
}

/// Puts what the second child's new items meet, in a dot, or in a prefix node with so many first indices.
pub fn push_all_met_second(
    xs: &Found,
    ys: &Bag,
    depth: Option<usize>,
    number: usize,
    out: &mut Bag,
) -> Result<(), NoMemory>
    ensures ok { OnOk result (kepts out.new ≡ kepts out.old
        ++ briefs (met_by_second (key_of depth) (kepts xs.now) (kepts ys.now))) }
    ensures more { AreMore number out.old out.new }
{
    for i in 0..ys.len() {
        push_met_second(xs, ys, i, depth, number, out)?;
    }
    Ok(())
}

/// Adds items to those that are found by place.
pub fn find_all(xs: &Bag, number: usize, out: &mut Found) -> Result<(), NoMemory>
    ensures ok { OnOk result (kepts out.new ≡ kepts out.old ++ kepts xs.now) }
    ensures more { AreMore number out.old out.new }
{
    for i in 0..xs.len() {
        out.push(xs.place(i), xs.kind(i), number)?;
    }
    Ok(())
}

/// Adds items to those that are found by their first indices.
pub fn group_all(xs: &Bag, number: usize, out: &mut Grouped) -> Result<(), NoMemory>
    ensures ok { OnOk result (kepts out.new.items ≡ kepts out.old.items ++ kepts xs.now) }
    ensures more { AreMore number out.old.items out.new.items }
    ensures depth { out.new.depth ≡ out.old.depth }
{
    for i in 0..xs.len() {
        out.push(xs.place(i), xs.kind(i), number)?;
    }
    Ok(())
}
