//! The lines of external memories.

ghost use Rattle.std.specs.Prelude.{◌≡◌, [], ◌∷◌, codes, map};
ghost use Rattle.cx_vscope.specs.Drafts.{draft_external, draft_externals, draft_sizes};
ghost use Rattle.cx_vread_exprs.specs.Answers.{Gives, place_of};
ghost use Rattle.cx_vread_exprs.specs.Places.{begins, many, with_front};
ghost use Rattle.cx_vread.specs.Parts as parts;

use cx_text::Name;
use cx_vread_exprs::{Fault, ReadPoint, any_number, begins, expect, name, small, word};
use cx_vscope::{DraftExternal, Numeral};
use std::alloc::Global;

/// A size after the first, with the space before it.
fn more_size<'a>(alloc: Global, at: ReadPoint<'a>) -> Result<(Numeral, ReadPoint<'a>), Fault>
    ensures { Gives (λ x. (x.0, place_of x.1)) result (parts.more_size_at (place_of at.entry)) }
{
    let at = expect(at, b" ")?;
    any_number(alloc, at)
}

/// The sizes of a memory after the first, at most three.
fn more_sizes<'a>(
    alloc: Global,
    first: Numeral,
    at: ReadPoint<'a>,
) -> Result<(Vec<Numeral>, ReadPoint<'a>), Fault>
    ensures { Gives (λ x. (draft_sizes x.0.items, place_of x.1)) result
        (with_front (first ∷ []) (many (begins (codes " ")) parts.more_size_at 3 (place_of at.entry))) }
{
    let mut sizes = Vec::new(alloc);
    sizes.push(first)?;
    let mut here = at;
    let mut left = 3usize;
    while left > 0 {
        if !begins(here, b" ") {
            return Ok((sizes, here));
        }
        let (size, after) = more_size(alloc, here)?;
        sizes.push(size)?;
        here = after;
        left -= 1;
    }
    Ok((sizes, here))
}

/// The sizes of a memory.
fn sizes<'a>(alloc: Global, at: ReadPoint<'a>) -> Result<(Vec<Numeral>, ReadPoint<'a>), Fault>
    ensures { Gives (λ x. (draft_sizes x.0.items, place_of x.1)) result (parts.sizes_at (place_of at.entry)) }
{
    let (first, at) = any_number(alloc, at)?;
    more_sizes(alloc, first, at)
}

/// The line of an external memory, from its width on.
fn external_of<'a>(
    alloc: Global,
    name: Name,
    instance: Name,
    at: ReadPoint<'a>,
) -> Result<(DraftExternal, ReadPoint<'a>), Fault>
    ensures { Gives (λ x. (draft_external x.0, place_of x.1)) result
        (parts.external_by name instance (place_of at.entry)) }
{
    let (width, at) = small(at)?;
    let at = expect(at, b" ")?;
    let (sizes, at) = sizes(alloc, at)?;
    let at = expect(at, b"\n")?;
    let external = DraftExternal {
        name,
        instance,
        width,
        sizes,
    };
    Ok((external, at))
}

/// The line of an external memory.
pub fn external<'a>(
    alloc: Global,
    at: ReadPoint<'a>,
) -> Result<(DraftExternal, ReadPoint<'a>), Fault>
    ensures { Gives (λ x. (draft_external x.0, place_of x.1)) result (parts.external_at (place_of at.entry)) }
{
    let at = expect(at, b"// external ")?;
    let (memory, at) = word(alloc, at)?;
    let at = expect(at, b" ")?;
    let (instance, at) = name(alloc, at)?;
    let at = expect(at, b" ")?;
    external_of(alloc, memory, instance, at)
}

/// The lines of external memories.
pub fn read_externals<'a>(
    alloc: Global,
    at: ReadPoint<'a>,
) -> Result<(Vec<DraftExternal>, ReadPoint<'a>), Fault>
    ensures { Gives (λ x. (draft_externals x.0.items, place_of x.1)) result (parts.externals_at (place_of at.entry)) }
{
    let mut list = Vec::new(alloc);
    let mut here = at;
    let mut left = at.rest.len();
    while left > 0 {
        if !begins(here, b"/") {
            return Ok((list, here));
        }
        let (item, after) = external(alloc, here)?;
        list.push(item)?;
        here = after;
        left -= 1;
    }
    Ok((list, here))
}
