//! The commands that the words on the command line spell.

ghost use Rattle.std.specs.Prelude.{◌≡◌, ℕ, List, MatchOption};
ghost use Rattle.cx_commands.specs.Commands.{Asks, AsksDesign, AsksNeither, AsksNoChange, AsksNoDesign, AsksNoDesignRun, AsksNoOther, AsksNoRewriting, AsksNoRun, AsksNoVerdict, AsksNothing, AsksRun, IsBudget, check, compile, instrument, interp, profile, promote, share, sim, trial, weave};
ghost use Rattle.cx_commands.specs.Asked.{asked_of};
ghost use Rattle.cx_commands.specs.Lists.{IsList};

use crate::lists::is_list;
use cx_outside::Word;
use cx_text::{BUDGET, decimal};

/// What is asked for. File names are lent from the words.
#[derive(Clone, Copy, Debug)]
pub enum Command<'a> {
    /// Writes the Verilog text of the design of a file.
    Compile {
        design: &'a [u8],
    },
    /// Runs the design of a file on a data file with a budget in turns.
    Interp {
        design: &'a [u8],
        json: &'a [u8],
        budget: u64,
    },
    /// Tries all rules on the design of a file.
    Check {
        design: &'a [u8],
    },
    /// Runs the Verilog text of a file on a data file with a budget in cycles.
    Sim {
        verilog: &'a [u8],
        json: &'a [u8],
        budget: u64,
    },
    /// Tries the design of a seed.
    Trial {
        seed: u64,
    },
    /// Writes the design of a file with one cell in the place of those that are never used together.
    Share {
        design: &'a [u8],
    },
    /// Writes the design of a file with the groups of known length as static ones.
    Promote {
        design: &'a [u8],
    },
    /// Writes the Verilog text of the design of a file with a counter for each group.
    Instrument {
        design: &'a [u8],
    },
    /// Runs the design of a file on a data file with a budget in turns, and counts how long each group is active.
    Profile {
        design: &'a [u8],
        json: &'a [u8],
        budget: u64,
    },
    /// Runs the design of a file on a data file by so many choices, those of a list.
    Weave {
        design: &'a [u8],
        json: &'a [u8],
        steps: u64,
        list: &'a [u8],
    },
}

/// The command of the words after the program's name.
#[tactic(auto, using(crate::proofs::CommandLemmas::neither))]
pub fn command_of(words: &[Word]) -> Option<Command<'_>>
    ensures { MatchOption result (AsksNothing words.now) (λ command. Asks words.now (asked_of command)) }
{
    match command_on_design(words) {
        Some(command) => Some(command),
        None => command_on_other(words),
    }
}

/// The command of the words of a run on files, a trial or a woven run.
fn command_on_other(words: &[Word]) -> Option<Command<'_>>
    ensures { MatchOption result (AsksNoOther words.now) (λ command. Asks words.now (asked_of command)) }
{
    match run_of(words) {
        Some(command) => Some(command),
        None => command_on_numbers(words),
    }
}

/// The command of the words of a trial or a woven run.
fn command_on_numbers(words: &[Word]) -> Option<Command<'_>>
    ensures { MatchOption result (AsksNeither words.now) (λ command. Asks words.now (asked_of command)) }
{
    match trial_of(words) {
        Some(command) => Some(command),
        None => weaver_of(words),
    }
}

/// The command of the words `NAME FILE` with a design.
fn command_on_design(words: &[Word]) -> Option<Command<'_>>
    ensures { MatchOption result (AsksNoDesign words.now) (λ command. Asks words.now (asked_of command)) }
{
    match verdict_of(words) {
        Some(command) => Some(command),
        None => changer_of(words),
    }
}

/// The command of the words `share FILE`, `promote FILE` or `instrument FILE`.
fn changer_of(words: &[Word]) -> Option<Command<'_>>
    ensures { MatchOption result (AsksNoChange words.now) (λ command. Asks words.now (asked_of command)) }
{
    match rewriter_of(words) {
        Some(command) => Some(command),
        None => instrumenter_of(words),
    }
}

/// The command of the words `share FILE` or `promote FILE`.
fn rewriter_of(words: &[Word]) -> Option<Command<'_>>
    ensures { MatchOption result (AsksNoRewriting words.now) (λ command. Asks words.now (asked_of command)) }
{
    match sharer_of(words) {
        Some(command) => Some(command),
        None => promoter_of(words),
    }
}

/// The command of the words `compile FILE` or `check FILE`.
fn verdict_of(words: &[Word]) -> Option<Command<'_>>
    ensures { MatchOption result (AsksNoVerdict words.now) (λ command. Asks words.now (asked_of command)) }
{
    match compiler_of(words) {
        Some(command) => Some(command),
        None => checker_of(words),
    }
}

fn compiler_of(words: &[Word]) -> Option<Command<'_>>
    ensures { MatchOption result ((design : List ℕ) → Asks words.now (compile design) → ⊥)
        (λ command. Asks words.now (asked_of command)) }
{
    match design_of(words, b"compile".as_slice()) {
        Some(design) => Some(Command::Compile { design }),
        None => None,
    }
}

fn checker_of(words: &[Word]) -> Option<Command<'_>>
    ensures { MatchOption result ((design : List ℕ) → Asks words.now (check design) → ⊥)
        (λ command. Asks words.now (asked_of command)) }
{
    match design_of(words, b"check".as_slice()) {
        Some(design) => Some(Command::Check { design }),
        None => None,
    }
}

fn sharer_of(words: &[Word]) -> Option<Command<'_>>
    ensures { MatchOption result ((design : List ℕ) → Asks words.now (share design) → ⊥)
        (λ command. Asks words.now (asked_of command)) }
{
    match design_of(words, b"share".as_slice()) {
        Some(design) => Some(Command::Share { design }),
        None => None,
    }
}

fn promoter_of(words: &[Word]) -> Option<Command<'_>>
    ensures { MatchOption result ((design : List ℕ) → Asks words.now (promote design) → ⊥)
        (λ command. Asks words.now (asked_of command)) }
{
    match design_of(words, b"promote".as_slice()) {
        Some(design) => Some(Command::Promote { design }),
        None => None,
    }
}

fn instrumenter_of(words: &[Word]) -> Option<Command<'_>>
    ensures { MatchOption result ((design : List ℕ) → Asks words.now (instrument design) → ⊥)
        (λ command. Asks words.now (asked_of command)) }
{
    match design_of(words, b"instrument".as_slice()) {
        Some(design) => Some(Command::Instrument { design }),
        None => None,
    }
}

/// The file of the words `NAME FILE`.
fn design_of<'a>(words: &'a [Word], name: &[u8]) -> Option<&'a [u8]>
    ensures { MatchOption result ((design : List ℕ) → AsksDesign words.now name.now design → ⊥)
        (λ design. AsksDesign words.now name.now design.now) }
{
    match words {
        [word, file] if word.bytes() == name => Some(file.bytes()),
        _ => None,
    }
}

/// The command of the words `interp FILE FILE BUDGET`, `profile FILE FILE BUDGET` or `sim FILE FILE BUDGET`.
fn run_of(words: &[Word]) -> Option<Command<'_>>
    ensures { MatchOption result (AsksNoRun words.now) (λ command. Asks words.now (asked_of command)) }
{
    match design_run_of(words) {
        Some(command) => Some(command),
        None => simulator_of(words),
    }
}

/// The command of the words `interp FILE FILE BUDGET` or `profile FILE FILE BUDGET`.
fn design_run_of(words: &[Word]) -> Option<Command<'_>>
    ensures { MatchOption result (AsksNoDesignRun words.now) (λ command. Asks words.now (asked_of command)) }
{
    match interpreter_of(words) {
        Some(command) => Some(command),
        None => profiler_of(words),
    }
}

fn interpreter_of(words: &[Word]) -> Option<Command<'_>>
    ensures { MatchOption result
        ((design json : List ℕ) (budget : ℕ) → Asks words.now (interp design json budget) → ⊥)
        (λ command. Asks words.now (asked_of command)) }
{
    match run_on_files(words, b"interp".as_slice()) {
        Some((design, json, budget)) => Some(Command::Interp {
            design,
            json,
            budget,
        }),
        None => None,
    }
}

fn profiler_of(words: &[Word]) -> Option<Command<'_>>
    ensures { MatchOption result
        ((design json : List ℕ) (budget : ℕ) → Asks words.now (profile design json budget) → ⊥)
        (λ command. Asks words.now (asked_of command)) }
{
    match run_on_files(words, b"profile".as_slice()) {
        Some((design, json, budget)) => Some(Command::Profile {
            design,
            json,
            budget,
        }),
        None => None,
    }
}

fn simulator_of(words: &[Word]) -> Option<Command<'_>>
    ensures { MatchOption result
        ((verilog json : List ℕ) (budget : ℕ) → Asks words.now (sim verilog json budget) → ⊥)
        (λ command. Asks words.now (asked_of command)) }
{
    match run_on_files(words, b"sim".as_slice()) {
        Some((verilog, json, budget)) => Some(Command::Sim {
            verilog,
            json,
            budget,
        }),
        None => None,
    }
}

/// The files and the budget of the words `NAME FILE FILE BUDGET`.
fn run_on_files<'a>(words: &'a [Word], name: &[u8]) -> Option<(&'a [u8], &'a [u8], u64)>
    ensures { MatchOption result
        ((first second : List ℕ) (budget : ℕ) → AsksRun words.now name.now first second budget → ⊥)
        (λ found. AsksRun words.now name.now found.0.now found.1.now found.2) }
{
    match words {
        [word, first, second, digits] if word.bytes() == name => {
            let budget = number(digits.bytes())?;
            Some((first.bytes(), second.bytes(), budget))
        }
        _ => None,
    }
}

/// The command of the words `trial SEED`.
fn trial_of(words: &[Word]) -> Option<Command<'_>>
    ensures { MatchOption result ((seed : ℕ) → Asks words.now (trial seed) → ⊥)
        (λ command. Asks words.now (asked_of command)) }
{
    match words {
        [name, digits] if name.bytes() == b"trial".as_slice() => {
            let seed = number(digits.bytes())?;
            Some(Command::Trial { seed })
        }
        _ => None,
    }
}

/// The command of the words `weave FILE FILE STEPS LIST`.
fn weaver_of(words: &[Word]) -> Option<Command<'_>>
    ensures { MatchOption result ((design json : List ℕ) (steps : ℕ) (list : List ℕ) →
        Asks words.now (weave design json steps list) → ⊥) (λ command. Asks words.now (asked_of command)) }
{
    match words {
        [name, design, json, digits, list] if name.bytes() == b"weave".as_slice() => {
            let steps = number(digits.bytes())?;
            weaver_on(design.bytes(), json.bytes(), steps, list.bytes())
        }
        _ => None,
    }
}

/// The command of a woven run, if its last word is a list.
fn weaver_on<'a>(
    design: &'a [u8],
    json: &'a [u8],
    steps: u64,
    list: &'a [u8],
) -> Option<Command<'a>>
    ensures { MatchOption result (IsList list.now → ⊥)
        (λ command. IsList list.now × (asked_of command ≡ weave design.now json.now steps list.now)) }
{
    if is_list(list) {
        Some(Command::Weave {
            design,
            json,
            steps,
            list,
        })
    } else {
        None
    }
}

/// A budget: one decimal digit or more, with a value of at most 10^12.
fn number(digits: &[u8]) -> Option<u64>
    ensures { MatchOption result ((budget : ℕ) → IsBudget digits.now budget → ⊥) (IsBudget digits.now) }
{
    let value = u64::try_from(decimal(digits)?).ok()?;
    if value > BUDGET { None } else { Some(value) }
}
