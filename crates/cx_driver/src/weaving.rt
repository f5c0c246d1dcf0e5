//! Woven runs of texts: a design, a data file and choices give a dump.

ghost use Rattle.std.specs.Prelude.{◌≡◌, ◌≤◌, ◌<◌, ◌⊎◌, All, IfOk, IfErr, List, MatchResult, length, map, ℕ};
ghost use Rattle.cx_text.specs.Loading.{FitsRows, FitsShape, plain_loaded};
ghost use Rattle.cx_data.specs.Widths.{HasWordWidth};
ghost use Rattle.cx_rules.specs.Externals.{external_rows};
ghost use Rattle.cx_rules.specs.Flat.{IsFlat};
ghost use Rattle.cx_design.specs.PlainDesigns.{plain_design};
ghost use Rattle.cx_commands.specs.Lists.{IsList, numbers_in};
ghost use Rattle.cx_commands.specs.declared.stops.Stop.{Stop as StopValue};
ghost use Rattle.cx_commands.specs.declared.stops.Stop.TheVariants as stops;
ghost use Rattle.cx_driver.specs.Weaving.{AllListsEnd, IsDesignWoven, IsRunWoven, IsWeaveStop, IsWovenAnswer, StopsDesignWoven, StopsRunWoven, StopsWeaving, NeverFaults, woven_text};

use crate::faults::faulted;
use crate::memories::{dump_of, load};
use cx_commands::{Stop, numbers};
use cx_compiler::design_to_run;
use cx_compiler::flat_laws::{
    accepted_texts_run_as_meant, what_is_run_is_accepted, what_is_run_is_flat,
};
use cx_compiler::laws::none_ends;
use cx_design::Checked;
use cx_orders::laws::orders_end;
use cx_text::{Loaded, Memory};
use cx_weave::Wove;
use itoa::Buffer;
use std::alloc::Global;

/// Runs the control of `main` by so many choices, those of a list again and again, with the words of a data file loaded. Answers
/// the dump of the choices made and of the words in which it leaves the external memories, and below it a line with the sum of
/// the numbers of the leaves that the choices advanced.
pub fn weave(
    alloc: Global,
    text: &[u8],
    json: &[u8],
    steps: u64,
    list: &[u32],
) -> Result<Vec<u8>, Stop>
    requires text { length text.now ≤ 1048576 }
    requires some { 0 < length list.now }
    ensures answer { IfOk result (λ told. IsWovenAnswer text.now json.now steps list.now told.items) }
    ensures cause { IfErr result (IsWeaveStop text.now json.now steps list.now) }

    // Where a woven run ends, the interpreter has no fault.
    ensures no_fault { IfOk result (λ _. NeverFaults text.now json.now) }

    // Where the interpreter ends, every list does with enough choices, in the same words.
    ensures every_list { AllListsEnd text.now json.now }

    // Where the run ends within the choices its dump is the answer, unless memory is wanting.
    ensures all_answers { (answer : List ℕ) → IsWovenAnswer text.now json.now steps list.now answer
        → MatchResult result (λ told. told.items ≡ answer) (λ stop. stop ≡ stops.Memory) }

    // A rule that the text breaks is told, the fault of the data file, that of the run, or that the choices do not suffice,
    // unless memory is wanting.
    ensures all_stops { (why : StopValue) → StopsWeaving text.now json.now steps list.now why
        → MatchResult result (λ _. ⊥) (λ stop. (stop ≡ stops.Memory) ⊎ (stop ≡ why)) }
{
    orders_end();
    accepted_texts_run_as_meant();
    what_is_run_is_accepted();
    what_is_run_is_flat();
    match design_to_run(alloc, text) {
        Ok(run) => {
            none_ends();
            weave_design(alloc, &run, json, steps, list)
        }
        Err(stop) => Err(stop),
    }
}

/// The same, with the list as a word.
pub(crate) fn weave_by(
    alloc: Global,
    text: &[u8],
    json: &[u8],
    steps: u64,
    word: &[u8],
) -> Result<Vec<u8>, Stop>
    requires text { length text.now ≤ 1048576 }
    requires list { IsList word.now }
    ensures answer { IfOk result (λ told. IsWovenAnswer text.now json.now steps (numbers_in word.now) told.items) }
    ensures cause { IfErr result (IsWeaveStop text.now json.now steps (numbers_in word.now)) }
{
    let list = numbers(alloc, word)?;
    weave(alloc, text, json, steps, &list)
}

/// The woven run of a design on a data file.
fn weave_design(
    alloc: Global,
    design: &Checked,
    json: &[u8],
    steps: u64,
    list: &[u32],
) -> Result<Vec<u8>, Stop>
    requires flat { IsFlat (plain_design design.now) }
    requires some { 0 < length list.now }
    ensures answer { IfOk result (λ told. IsDesignWoven (plain_design design.now) list.now json.now steps told.items) }
    ensures cause { IfErr result (StopsDesignWoven (plain_design design.now) list.now json.now steps) }
{
    let rows = design.rows(alloc)?;
    match load(alloc, json, &rows) {
        Ok(loaded) => weave_loaded(alloc, design, loaded, steps, list),
        Err(stop) => Err(stop),
    }
}

/// That of a design with these words loaded.
fn weave_loaded(
    alloc: Global,
    design: &Checked,
    loaded: Loaded,
    steps: u64,
    list: &[u32],
) -> Result<Vec<u8>, Stop>
    requires flat { IsFlat (plain_design design.now) }
    requires fits { FitsRows (external_rows (plain_design design.now)) (plain_loaded loaded) }
    requires some { 0 < length list.now }
    ensures answer { IfOk result
        (λ told. IsRunWoven (plain_design design.now) list.now (plain_loaded loaded) steps told.items) }
    ensures cause { IfErr result (StopsRunWoven (plain_design design.now) list.now (plain_loaded loaded) steps) }
{
    let mut loaded = loaded;
    let wove = cx_weave::weave(alloc, design, &mut loaded, list, steps)?;
    match wove {
        Wove::End(made, sum) => {
            let text = text_of(alloc, made, sum, &loaded)?;
            Ok(text)
        }
        Wove::Fault(fault, made) => Err(faulted(alloc, design, fault, made)),
        Wove::More => Err(Stop::More(steps)),
    }
}

/// The dump of a woven run, and below it `leaves SUM`.
fn text_of(alloc: Global, made: u64, sum: u128, loaded: &Loaded) -> Result<Vec<u8>, Memory>
    requires fits { All FitsShape (plain_loaded loaded.now) }
    requires widths { All HasWordWidth (map (λ m. m.shape) (plain_loaded loaded.now)) }
    ensures { IfOk result (λ text. text.items ≡ woven_text made sum (plain_loaded loaded.now)) }
{
    let mut text = dump_of(alloc, made, loaded)?;
    text.extend_from_slice(b"leaves ")?;
    let mut buffer = Buffer::new();
    text.extend_from_slice(buffer.format(sum).as_bytes())?;
    text.push(b'\n')?;
    Ok(text)
}
