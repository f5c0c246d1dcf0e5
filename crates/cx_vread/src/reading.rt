//! The reading of a whole text.

ghost use Rattle.std.specs.Prelude.{◌≡◌, ℕ, true, IfOk, IfErr};
ghost use Rattle.cx_vtree.specs.Layout.{is_laid_out};
ghost use Rattle.cx_vtree.specs.Plain.{PlainSource};
ghost use Rattle.cx_vtree.specs.PlainSources.{plain_source};
ghost use Rattle.cx_vtree.specs.Sound.{is_sound};
ghost use Rattle.cx_vscope.specs.Drafts.{draft_source};
ghost use Rattle.cx_vread_exprs.specs.Answers.{Fails, Gives, place_of};
ghost use Rattle.cx_vread.specs.Parts.{source_at};
ghost use Rattle.cx_vread.specs.Astray.{IsFirstAstray};
ghost use Rattle.cx_vread.specs.ReadAnswers.{Answers, AstrayAt, IsAstray, ReadAs, StandsFor, Tells, TellsParts, refusal};
ghost use Rattle.cx_vtree.specs.Spelling.{text_of};

use crate::astray::first_astray;
use crate::finishing::finished;
use crate::refusals::ReadRefusal;
use crate::{read_externals, read_modules};
use cx_text::Memory;
use cx_vread_exprs::{Fault, ReadPoint};
use cx_vscope::{DraftExternal, DraftModule};
use cx_vsound::{Break, check};
use cx_vtree::Source;
use std::alloc::Global;

/// A break as a refusal.
fn refusal_of(found: Break) -> ReadRefusal
    ensures { result ≡ refusal found }
{
    match found {
        Break::Name(line) => ReadRefusal::Name(line),
        Break::Width(line) => ReadRefusal::Width(line),
        Break::Limit(line) => ReadRefusal::Limit(line),
    }
}

/// The parts of a text. Where no tree holds a part, one that breaks the same rules stands for it.
fn parts<'a>(
    alloc: Global,
    at: ReadPoint<'a>,
) -> Result<((Vec<DraftExternal>, Vec<DraftModule>), ReadPoint<'a>), Fault>
    ensures { Gives (λ x. (draft_source x.0.0.items x.0.1.items, place_of x.1)) result (source_at (place_of at.entry)) }
{
    let (externals, at) = read_externals(alloc, at)?;
    let (modules, at) = read_modules(alloc, at)?;
    Ok(((externals, modules), at))
}

/// The refusal of a text in which reading stopped.
#[tactic(auto, using(crate::proofs::WholeTexts::stops_astray))]
fn stopped(alloc: Global, text: &[u8], fault: Fault) -> ReadRefusal
    requires { Fails fault (source_at (record { rest = text.now; fits = true })) }
    ensures { IsAstray text.now result }
{
    match fault {
        Fault::Memory => ReadRefusal::Memory,
        Fault::Syntax(_) => match first_astray(alloc, text) {
            Err(Memory) => ReadRefusal::Memory,
            Ok(Some(line)) => ReadRefusal::Syntax(line),
            Ok(None) => unreachable!(),
        },
    }
}

/// Tells the first break of parts that were read, or keeps them where there is none.
#[tactic(auto, using(crate::proofs::Checks::memory_tells, crate::proofs::Checks::break_tells, crate::proofs::Checks::none_tells))]
fn answer(
    alloc: Global,
    text: &[u8],
    externals: Vec<DraftExternal>,
    modules: Vec<DraftModule>,
) -> Result<Source, ReadRefusal>
    requires { StandsFor text.now (draft_source externals.items modules.items) }
    ensures value { IfOk result (λ source. text.now ≡ text_of (plain_source source)) }
    ensures answer { TellsParts text.now (draft_source externals.items modules.items) result }
{
    match check(alloc, &externals, &modules)? {
        None => Ok(finished(alloc, externals, modules)?),
        Some(found) => Err(refusal_of(found)),
    }
}

/// The source that a text spells.
pub fn read(alloc: Global, text: &[u8]) -> Result<Source, ReadRefusal>
    // What is read is spelled so. That it is sound stands in its type.
    ensures value { IfOk result (λ source. text.now ≡ text_of (plain_source source)) }
    // A text that spells a sound source is read as it, unless memory is refused.
    ensures sound { (s : PlainSource) → text.now ≡ text_of s → is_sound s ≡ true → ReadAs s result }
    // A text that spells a source, with whatever numbers, is read as it, or refused for its first break.
    ensures spelled { (s : PlainSource) → text.now ≡ text_of s → is_laid_out s ≡ true → Answers s result }
    // Where the layout is wrong the first line is told with which the lines so far begin no text. A text that is refused for a
    // rule spells a source with that first break.
    ensures told { IfErr result (Tells text.now) }
    // And where the lines begin no text the first such line is told, unless memory is refused.
    ensures astray { (line : ℕ) → IsFirstAstray text.now line → AstrayAt line result }
{
    match parts(alloc, ReadPoint { rest: text }) {
        Err(fault) => Err(stopped(alloc, text, fault)),
        Ok(found) => {
            let ((externals, modules), _) = found;
            answer(alloc, text, externals, modules)
        }
    }
}
