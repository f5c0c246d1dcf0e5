//! The check of a whole source.

ghost use Rattle.std.specs.Prelude.{◌≡◌, option_map, IfOk};
ghost use Rattle.cx_vscope.specs.Drafts.{draft_externals, draft_modules};
ghost use Rattle.cx_vtree.specs.Sound.{break_of};
ghost use Rattle.cx_vsound.specs.Search.{told_break};

use crate::externals::externals as external_lines;
use crate::modules::modules as module_lines;
use crate::search::{Break, begin};
use cx_text::Memory;
use cx_vscope::{DraftExternal, DraftModule};
use std::alloc::Global;

/// The first line of the text of a source that breaks a rule, and the kind of the rule.
#[tactic(auto, using(crate::proofs::Overs::over_append, crate::proofs::Overs::found_first))]
pub fn check(
    alloc: Global,
    externals: &[DraftExternal],
    modules: &[DraftModule],
) -> Result<Option<Break>, Memory>
    ensures { IfOk result (λ found. found ≡
        option_map told_break (break_of
        (record { externals = draft_externals externals.now; modules = draft_modules modules.now }))) }
{
    let search = external_lines(alloc, begin(), modules, externals)?;
    let search = module_lines(alloc, search, modules)?;
    Ok(search.found)
}
