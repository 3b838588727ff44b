// The rows of the table: which services there are, and what each wants.
ghost use Rattle.std.specs.Prelude.{◌≡◌, ◌≤◌, ◌-◌, drop, length, map, take};
ghost use Rattle.tv_value.specs.Orders.{named};
ghost use Rattle.tv_local.specs.Table.{names, wants};
ghost use Rattle.tv_local.specs.Beginnings.{from_byte, spans};

/// A local service.
#[derive(Clone, Copy, Debug, PartialEq, Eq)]
pub enum Local {
    Add,
    Concat,
    Count,
    Distinct,
    Echo,
    FailIf,
    Flaky,
    Flatten,
    Intersect,
    Join,
    Length,
    Lower,
    Range,
    Reverse,
    Split,
    Subtract,
    Take,
    Upper,
}

/// What an input must be.
#[derive(Clone, Copy, Debug, PartialEq, Eq)]
pub enum Want {
    /// A text: depth 0.
    Text,
    /// A list of texts: depth 1.
    Texts,
    /// A list of lists of texts: depth 2.
    Lists,
    /// A number text: depth 0.
    Number,
    /// Anything without an error.
    Any,
}

/// The services, by name.
fn rows() -> &'static [(&'static str, Local)]
    ensures { map (λ r. (r.0.now, r.1)) result.now ≡ names }
{
    &[
        ("add", Local::Add),
        ("concat", Local::Concat),
        ("count", Local::Count),
        ("distinct", Local::Distinct),
        ("echo", Local::Echo),
        ("fail_if", Local::FailIf),
        ("flaky", Local::Flaky),
        ("flatten", Local::Flatten),
        ("intersect", Local::Intersect),
        ("join", Local::Join),
        ("length", Local::Length),
        ("lower", Local::Lower),
        ("range", Local::Range),
        ("reverse", Local::Reverse),
        ("split", Local::Split),
        ("subtract", Local::Subtract),
        ("take", Local::Take),
        ("upper", Local::Upper),
    ]
}

/// Where the rows whose names begin with each byte stand, from `a` to `u`: from the first number to before the second.
fn spans() -> &'static [(usize, usize)]
    ensures { result.now ≡ spans }
{
    &[
        (0, 1),
        (1, 1),
        (1, 3),
        (3, 4),
        (4, 5),
        (5, 8),
        (8, 8),
        (8, 8),
        (8, 9),
        (9, 10),
        (10, 10),
        (10, 12),
        (12, 12),
        (12, 12),
        (12, 12),
        (12, 12),
        (12, 12),
        (12, 14),
        (14, 16),
        (16, 17),
        (17, 18),
    ]
}

/// The services whose names begin with this byte, by name. Constant time.
fn rows_from(first: u8) -> &'static [(&'static str, Local)]
    ensures { map (λ r. (r.0.now, r.1)) result.now ≡ from_byte first }
{
    if first < b'a' {
        return &[];
    }
    match spans().get((first - b'a') as usize) {
        Some((from, to)) => between(rows(), *from, *to),
        None => &[],
    }
}

/// The rows from the first number to before the second.
fn between(
    rows: &'static [(&'static str, Local)],
    from: usize,
    to: usize,
) -> &'static [(&'static str, Local)]
    requires { from ≤ to × to ≤ length rows.now }
    ensures { result.now ≡ take (to - from) (drop from rows.now) }
{
    &rows[from..to]
}

/// The service of a name. Compares it with the names that begin as it does, three at the most.
pub(crate) fn find(name: &str) -> Option<Local>
    ensures { result ≡ named name.now names }
{
    match name.as_bytes() {
        [first, ..] => find_among(rows_from(*first), name),
        [] => None,
    }
}

fn find_among(rows: &[(&str, Local)], name: &str) -> Option<Local>
    ensures { result ≡ named name.now (map (λ r. (r.0.now, r.1)) rows.now) }
{
    for (other, local) in rows {
        if name == *other {
            return Some(*local);
        }
    }
    None
}

/// What a service wants of its inputs, in order of their ports' names.
pub(crate) fn wants(local: Local) -> &'static [Want]
    ensures { result.now ≡ wants local }
{
    match local {
        Local::Upper | Local::Lower | Local::Length | Local::FailIf => &[Want::Text],
        Local::Reverse | Local::Count | Local::Distinct => &[Want::Texts],
        Local::Flatten => &[Want::Lists],
        Local::Echo => &[Want::Any],
        Local::Concat | Local::Split => &[Want::Text, Want::Text],
        Local::Join => &[Want::Texts, Want::Text],
        Local::Add | Local::Subtract | Local::Range => &[Want::Number, Want::Number],
        Local::Take => &[Want::Texts, Want::Number],
        Local::Intersect => &[Want::Texts, Want::Texts],
        Local::Flaky => &[Want::Text, Want::Number],
    }
}
