//! The first break, line by line.

ghost use Rattle.std.specs.Prelude.{◌≡◌, false};
ghost use Rattle.cx_vsound.specs.Search.{faults_in, break_on, noted, start};

/// Which kinds of rules a line breaks.
#[derive(Clone, Copy, Debug, PartialEq, Eq)]
pub struct LineFaults {
    pub name: bool,
    pub width: bool,
    pub limit: bool,
}

/// The line of a break, counted from 1, by the kind of the rule. From 2^32 - 1 on all lines are that one.
#[derive(Clone, Copy, Debug, PartialEq, Eq)]
pub enum Break {
    Name(u32),
    Width(u32),
    Limit(u32),
}

/// The line that is looked at next, and the first break before it.
#[derive(Clone, Copy, Debug, PartialEq, Eq)]
pub struct Search {
    pub line: u32,
    pub found: Option<Break>,
}

/// A search that stands at the first line.
pub fn begin() -> Search
    ensures { result ≡ start }
{
    Search {
        line: 1,
        found: None,
    }
}

/// What a line breaks: a name before a width, and that before a limit.
fn break_at(line: u32, faults: LineFaults) -> Option<Break>
    ensures { result ≡ break_on line (faults_in faults) }
{
    if faults.name {
        Some(Break::Name(line))
    } else if faults.width {
        Some(Break::Width(line))
    } else if faults.limit {
        Some(Break::Limit(line))
    } else {
        None
    }
}

/// Goes on past a line.
pub fn after(search: Search, faults: LineFaults) -> Search
    ensures { result ≡ noted search (faults_in faults) }
{
    Search {
        line: search.line.saturating_add(1),
        found: search.found.or(break_at(search.line, faults)),
    }
}

/// Goes on past a line that breaks nothing.
pub fn clean(search: Search) -> Search
    ensures { result ≡ noted search (faults_in (record { name = false; width = false; limit = false })) }
{
    after(
        search,
        LineFaults {
            name: false,
            width: false,
            limit: false,
        },
    )
}
