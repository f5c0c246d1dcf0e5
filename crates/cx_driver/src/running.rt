//! The top call.

ghost use Rattle.std.specs.Prelude.{◌≡◌, ◌≢◌, ◌⊎◌, ◌↔◌, ◌≤◌, ℕ, List, Option, [], ◌∷◌, ◌++◌, Some, Contains, codes, length, IfOk, IfErr, IsSomeAnd};
ghost use Rattle.cx_text.specs.declared.limits.TheConstants.{BUDGET};
ghost use Rattle.cx_outside.specs.Counts.{HasRisen};
ghost use Rattle.cx_outside.specs.Writing.{grown, GrowsByPart};
ghost use Rattle.cx_commands.specs.Commands.{Asked, Asks, AsksNothing, IsPossible, IsFileOf, files_of};
ghost use Rattle.cx_commands.specs.Asked.{asked_of};
ghost use Rattle.cx_commands.specs.Commands as asked;
ghost use Rattle.cx_commands.specs.Lists.{IsList};
ghost use Rattle.cx_commands.specs.Messages.{line_of};
ghost use Rattle.cx_compiler.specs.Promise.{KeepsOfFile};
ghost use Rattle.cx_driver.specs.Alike.{AlikeOfFile};
ghost use Rattle.cx_driver.specs.NoLater.{NoLaterOfFile};
ghost use Rattle.cx_driver.specs.Outcomes.{CanAnswer, IsAnswer, IsAnswerTo, IsStopped, OfTold};
ghost use Rattle.cx_commands.specs.Reads.{HoldsWithin, IsReadFault};
ghost use Rattle.cx_commands.specs.declared.refusals.Refusal.{Refusal as RefusalValue};
ghost use Rattle.cx_commands.specs.declared.refusals.Refusal.TheVariants as refusals;
ghost use Rattle.cx_commands.specs.declared.refusals.Status.TheVariants as statuses;
ghost use Rattle.cx_commands.specs.declared.stops.Stop.{Stop as StopValue};
ghost use Rattle.cx_driver.specs.Causes.{HasCause, IsMemory, IsOfFile, IsTold, IsTrueOfFile, TellsUnread, ToldWhy};
ghost use Rattle.cx_commands.specs.Statuses.{IsRefusing, ReceivesLine, fixed_line, status_of};

use crate::instrumenting::instrument;
use crate::interpreting::interp;
use crate::profiling::profile;
use crate::promoting::promote;
use crate::sharing::share;
use crate::simulating::sim;
use crate::trying::trial;
use crate::weaving::weave_by;
use cx_commands::{Command, Refusal, Status, Stop, command_of, line};
use cx_compiler::{check_text, compile};
use cx_outside::{FileAnswer, Files, Sink, Word, write_all};
use cx_text::{DATA_BYTES, DESIGN_BYTES, VERILOG_BYTES};
use std::alloc::Global;

/// Does what the words after the program's name ask for: writes the whole answer to `out`, or a line to `err` that
/// says why there is none. A failing `err` changes no status.
pub fn run<F: Files, O: Sink, E: Sink>(
    alloc: Global,
    words: &[Word],
    files: &mut F,
    out: &mut O,
    err: &mut E,
) -> Status
    ensures done { result ≡ statuses.Done →
        (text : List ℕ) × IsAnswerTo (F.held files.old) words.now text
        × (O.written out.new ≡ grown (O.written out.old) text) }

    // THE PROMISE: what `compile` wrote of a file keeps it.
    ensures promise { result ≡ statuses.Done → (file : List ℕ) → Asks words.now (asked.compile file)
        → (verilog : List ℕ) × KeepsOfFile (F.held files.old) file verilog
        × (O.written out.new ≡ grown (O.written out.old) verilog) }

    // What `share` wrote of a file is accepted, and interpreted as the file is.
    ensures shared { result ≡ statuses.Done → (file : List ℕ) → Asks words.now (asked.share file)
        → (answer : List ℕ) × AlikeOfFile (F.held files.old) file answer
        × (O.written out.new ≡ grown (O.written out.old) answer) }

    // What `promote` wrote of a file is accepted, and interpreted no later than the file, with the same memories.
    ensures promoted { result ≡ statuses.Done → (file : List ℕ) → Asks words.now (asked.promote file)
        → (answer : List ℕ) × NoLaterOfFile (F.held files.old) file answer
        × (O.written out.new ≡ grown (O.written out.old) answer) }

    ensures words { (result ≡ statuses.Words) ↔ AsksNothing words.now }
    ensures read_fault { result ≡ statuses.ReadFault → (file : List ℕ) × IsFileOf words.now file
        × IsReadFault (F.held files.old) (F.faults files.old) (F.faults files.new) file
        × (F.failures files.new ≡ F.failures files.old ++ file ∷ []) }
    ensures write_fault { result ≡ statuses.WriteFault → HasRisen (O.faults out.old) (O.faults out.new) }

    ensures part { result ≡ statuses.WriteFault →
        (text : List ℕ) × IsAnswerTo (F.held files.old) words.now text
        × GrowsByPart (O.written out.old) text (O.written out.new) }
    ensures nothing { result ≢ statuses.Done → result ≢ statuses.WriteFault →
        O.written out.new ≡ O.written out.old }

    ensures cause { IsRefusing result → (command : Asked) × Asks words.now command
        × ToldWhy command (F.held files.old) (F.faults files.old) (F.faults files.new)
        (F.failures files.old) (F.failures files.new) result
        (E.written err.old) (E.faults err.old) (E.written err.new) (E.faults err.new) }
    ensures quiet { result ≡ statuses.Done → E.written err.new ≡ E.written err.old }
    ensures all_read { result ≡ statuses.Done → F.failures files.new ≡ F.failures files.old }
    ensures said { (told : List ℕ) → fixed_line result ≡ Some told →
        ReceivesLine (E.written err.old) (E.faults err.old) told (E.written err.new) (E.faults err.new) }

    // Where the files are told, or none is read, and they give an answer, and no read failed, it is written, but for
    // a failing output and want of memory.
    ensures completes { (command : Asked) → Asks words.now command →
        OfTold command (F.held files.old) (λ held. CanAnswer held command)
        → (HasRisen (F.faults files.old) (F.faults files.new) → ⊥)
        → (result ≡ statuses.Done) ⊎ (result ≡ statuses.WriteFault) ⊎ (result ≡ statuses.Memory) }

    // Where the files are told, or none is read, and they stop the command, and no read failed, the status is that of
    // what stops it, but for want of memory.
    ensures all_stops { (command : Asked) (why : StopValue) → Asks words.now command →
        OfTold command (F.held files.old) (λ held. IsStopped held command why)
        → (HasRisen (F.faults files.old) (F.faults files.new) → ⊥)
        → (result ≡ status_of (refusals.Stop why)) ⊎ (result ≡ statuses.Memory) }

    // And that is told by its line.
    ensures all_lines { (command : Asked) (why : StopValue) → Asks words.now command →
        OfTold command (F.held files.old) (λ held. IsStopped held command why)
        → (HasRisen (F.faults files.old) (F.faults files.new) → ⊥)
        → IsTold (refusals.Stop why) result (E.written err.old) (E.faults err.old) (E.written err.new)
        (E.faults err.new) }

    // Where the files are told, and one is over its limit or is not there, behind others that are within theirs, it
    // is told, but for want of memory.
    ensures all_files { (command : Asked) (why : RefusalValue) → Asks words.now command →
        IsSomeAnd (F.held files.old) (λ holds. IsTrueOfFile command holds why)
        → (HasRisen (F.faults files.old) (F.faults files.new) → ⊥)
        → IsTold why result (E.written err.old) (E.faults err.old) (E.written err.new)
        (E.faults err.new) }

    ensures kept { F.held files.new ≡ F.held files.old }
{
    match command_of(words) {
        Some(command) => obey(alloc, command, files, out, err),
        None => {
            tell(b"words\n", err);
            Status::Words
        }
    }
}

/// Does what a command asks for.
fn obey<F: Files, O: Sink, E: Sink>(
    alloc: Global,
    command: Command<'_>,
    files: &mut F,
    out: &mut O,
    err: &mut E,
) -> Status
    requires possible { IsPossible (asked_of command) }
    ensures done { result ≡ statuses.Done →
        (text : List ℕ) × IsAnswer (F.held files.old) (asked_of command.entry) text
        × (O.written out.new ≡ grown (O.written out.old) text) }

    ensures words { result ≢ statuses.Words }
    ensures read_fault { result ≡ statuses.ReadFault → (file : List ℕ) × Contains (files_of (asked_of command.entry)) file
        × IsReadFault (F.held files.old) (F.faults files.old) (F.faults files.new) file
        × (F.failures files.new ≡ F.failures files.old ++ file ∷ []) }
    ensures write_fault { result ≡ statuses.WriteFault → HasRisen (O.faults out.old) (O.faults out.new) }

    ensures part { result ≡ statuses.WriteFault →
        (text : List ℕ) × IsAnswer (F.held files.old) (asked_of command.entry) text
        × GrowsByPart (O.written out.old) text (O.written out.new) }
    ensures nothing { result ≢ statuses.Done → result ≢ statuses.WriteFault →
        O.written out.new ≡ O.written out.old }

    ensures cause { IsRefusing result →
        ToldWhy (asked_of command.entry) (F.held files.old) (F.faults files.old) (F.faults files.new)
        (F.failures files.old) (F.failures files.new) result (E.written err.old) (E.faults err.old)
        (E.written err.new) (E.faults err.new) }
    ensures quiet { result ≡ statuses.Done → E.written err.new ≡ E.written err.old }
    ensures all_read { result ≡ statuses.Done → F.failures files.new ≡ F.failures files.old }
    ensures said { (told : List ℕ) → fixed_line result ≡ Some told →
        ReceivesLine (E.written err.old) (E.faults err.old) told (E.written err.new) (E.faults err.new) }

    ensures completes { OfTold (asked_of command.entry) (F.held files.old) (λ held. CanAnswer held (asked_of command.entry))
        → (HasRisen (F.faults files.old) (F.faults files.new) → ⊥)
        → (result ≡ statuses.Done) ⊎ (result ≡ statuses.WriteFault) ⊎ (result ≡ statuses.Memory) }
    ensures all_stops { (why : StopValue) →
        OfTold (asked_of command.entry) (F.held files.old)
        (λ held. IsStopped held (asked_of command.entry) why)
        → (HasRisen (F.faults files.old) (F.faults files.new) → ⊥)
        → (result ≡ status_of (refusals.Stop why)) ⊎ (result ≡ statuses.Memory) }
    ensures all_files { (why : RefusalValue) →
        IsSomeAnd (F.held files.old) (λ holds. IsTrueOfFile (asked_of command.entry) holds why)
        → (HasRisen (F.faults files.old) (F.faults files.new) → ⊥)
        → IsTold why result (E.written err.old) (E.faults err.old) (E.written err.new)
        (E.faults err.new) }

    ensures kept { F.held files.new ≡ F.held files.old }
{
    match answer(alloc, command, files) {
        Ok(text) => deliver(&text, out, err),
        Err(refusal) => refuse(alloc, &refusal, err),
    }
}

/// Writes the answer, or says that it could not be written.
fn deliver<O: Sink, E: Sink>(text: &[u8], out: &mut O, err: &mut E) -> Status
    ensures cases { ((result ≡ statuses.Done) × (O.written out.new ≡ grown (O.written out.old) text.now) ×
        (E.written err.new ≡ E.written err.old))
        ⊎ ((result ≡ statuses.WriteFault) × HasRisen (O.faults out.old) (O.faults out.new)
        × GrowsByPart (O.written out.old) text.now (O.written out.new)
        × ReceivesLine (E.written err.old) (E.faults err.old) (codes "write-fault\n") (E.written err.new)
        (E.faults err.new)) }
{
    match write_all(out, text) {
        Ok(()) => Status::Done,
        Err(_) => {
            tell(b"write-fault\n", err);
            Status::WriteFault
        }
    }
}

/// Says why there is no answer.
fn refuse<E: Sink>(alloc: Global, refusal: &Refusal<'_>, err: &mut E) -> Status
    ensures { ((result ≡ status_of refusal.now) ×
        ReceivesLine (E.written err.old) (E.faults err.old) (line_of refusal.now) (E.written err.new)
        (E.faults err.new))
        ⊎ ((result ≡ statuses.Memory) × ReceivesLine (E.written err.old) (E.faults err.old)
        (codes "memory\n") (E.written err.new) (E.faults err.new)) }
{
    match line(alloc, refusal) {
        Ok(line) => {
            tell(&line, err);
            refusal.status()
        }
        Err(_) => {
            tell(b"memory\n", err);
            Status::Memory
        }
    }
}

/// Writes a line, or as much of it as the sink takes.
fn tell<E: Sink>(line: &[u8], err: &mut E)
    ensures { ReceivesLine (E.written err.old) (E.faults err.old) line.now (E.written err.new) (E.faults err.new) }
{
    let _ = write_all(err, line);
}

/// The answer of a command.
fn answer<'a, F: Files>(
    alloc: Global,
    command: Command<'a>,
    files: &mut F,
) -> Result<Vec<u8>, Refusal<'a>>
    requires possible { IsPossible (asked_of command) }
    ensures answer { IfOk result (λ text. IsAnswer (F.held files.old) (asked_of command.entry) text.items) }
    ensures cause { IfErr result
        (HasCause (asked_of command.entry) (F.held files.old) (F.faults files.old) (F.faults files.new)) }
    ensures unread { TellsUnread result (F.failures files.old) (F.failures files.new) }
    ensures kept { F.held files.new ≡ F.held files.old }
{
    match command {
        Command::Compile { design } => compiled(alloc, design, files),
        Command::Interp {
            design,
            json,
            budget,
        } => interpreted(alloc, design, json, budget, files),
        Command::Check { design } => checked(alloc, design, files),
        Command::Sim {
            verilog,
            json,
            budget,
        } => simulated(alloc, verilog, json, budget, files),
        Command::Trial { seed } => tried(alloc, seed),
        Command::Share { design } => shared(alloc, design, files),
        Command::Promote { design } => promoted(alloc, design, files),
        Command::Instrument { design } => instrumented(alloc, design, files),
        Command::Profile {
            design,
            json,
            budget,
        } => profiled(alloc, design, json, budget, files),
        Command::Weave {
            design,
            json,
            steps,
            list,
        } => woven(alloc, design, json, steps, list, files),
    }
}

/// The answer of the compiler on a file.
fn compiled<'a, F: Files>(
    alloc: Global,
    design: &'a [u8],
    files: &mut F,
) -> Result<Vec<u8>, Refusal<'a>>
    ensures answer { IfOk result (λ text. IsAnswer (F.held files.old) (asked.compile design.now) text.items) }
    ensures cause { IfErr result
        (HasCause (asked.compile design.now) (F.held files.old) (F.faults files.old) (F.faults files.new)) }
    ensures unread { TellsUnread result (F.failures files.old) (F.failures files.new) }
    ensures kept { F.held files.new ≡ F.held files.old }
{
    let text = read(alloc, files, design, DESIGN_BYTES)?;
    match compile(alloc, &text) {
        Ok(verilog) => Ok(verilog),
        Err(why) => Err(Refusal::Stop(why)),
    }
}

/// The answer of the interpreter on files.
fn interpreted<'a, F: Files>(
    alloc: Global,
    design: &'a [u8],
    json: &'a [u8],
    budget: u64,
    files: &mut F,
) -> Result<Vec<u8>, Refusal<'a>>
    ensures answer { IfOk result
        (λ text. IsAnswer (F.held files.old) (asked.interp design.now json.now budget) text.items) }
    ensures cause { IfErr result (HasCause (asked.interp design.now json.now budget) (F.held files.old)
        (F.faults files.old) (F.faults files.new)) }
    ensures unread { TellsUnread result (F.failures files.old) (F.failures files.new) }
    ensures kept { F.held files.new ≡ F.held files.old }
{
    let text = read(alloc, files, design, DESIGN_BYTES)?;
    let data = read(alloc, files, json, DATA_BYTES)?;
    match interp(alloc, &text, &data, budget) {
        Ok(dump) => Ok(dump),
        Err(stop) => Err(Refusal::Stop(stop)),
    }
}

/// The answer of the simulator on files.
fn simulated<'a, F: Files>(
    alloc: Global,
    verilog: &'a [u8],
    json: &'a [u8],
    budget: u64,
    files: &mut F,
) -> Result<Vec<u8>, Refusal<'a>>
    ensures answer { IfOk result
        (λ text. IsAnswer (F.held files.old) (asked.sim verilog.now json.now budget) text.items) }
    ensures cause { IfErr result (HasCause (asked.sim verilog.now json.now budget) (F.held files.old)
        (F.faults files.old) (F.faults files.new)) }
    ensures unread { TellsUnread result (F.failures files.old) (F.failures files.new) }
    ensures kept { F.held files.new ≡ F.held files.old }
{
    let text = read(alloc, files, verilog, VERILOG_BYTES)?;
    let data = read(alloc, files, json, DATA_BYTES)?;
    match sim(alloc, &text, &data, budget) {
        Ok(dump) => Ok(dump),
        Err(why) => Err(Refusal::Stop(why)),
    }
}

/// The answer of a woven run on files.
fn woven<'a, F: Files>(
    alloc: Global,
    design: &'a [u8],
    json: &'a [u8],
    steps: u64,
    list: &[u8],
    files: &mut F,
) -> Result<Vec<u8>, Refusal<'a>>
    requires list { IsList list.now }
    ensures answer { IfOk result
        (λ text. IsAnswer (F.held files.old) (asked.weave design.now json.now steps list.now) text.items) }
    ensures cause { IfErr result (HasCause (asked.weave design.now json.now steps list.now)
        (F.held files.old) (F.faults files.old) (F.faults files.new)) }
    ensures unread { TellsUnread result (F.failures files.old) (F.failures files.new) }
    ensures kept { F.held files.new ≡ F.held files.old }
{
    let text = read(alloc, files, design, DESIGN_BYTES)?;
    let data = read(alloc, files, json, DATA_BYTES)?;
    match weave_by(alloc, &text, &data, steps, list) {
        Ok(dump) => Ok(dump),
        Err(stop) => Err(Refusal::Stop(stop)),
    }
}

/// The answer of a trial, which reads no file.
fn tried<'a>(alloc: Global, seed: u64) -> Result<Vec<u8>, Refusal<'a>>
    ensures answer { (held : Option (List ℕ → Option (List ℕ))) →
        IfOk result (λ line. IsAnswer held (asked.trial seed) line.items) }
    ensures cause { (held : Option (List ℕ → Option (List ℕ))) (before after : ℕ) →
        IfErr result (HasCause (asked.trial seed) held before after) }
    ensures unread { (names : List (List ℕ)) → TellsUnread result names names }
{
    match trial(alloc, seed) {
        Ok(line) => Ok(line),
        Err(why) => Err(Refusal::Stop(why)),
    }
}

/// The answer of the checks on a file.
fn checked<'a, F: Files>(
    alloc: Global,
    design: &'a [u8],
    files: &mut F,
) -> Result<Vec<u8>, Refusal<'a>>
    ensures answer { IfOk result (λ text. IsAnswer (F.held files.old) (asked.check design.now) text.items) }
    ensures cause { IfErr result
        (HasCause (asked.check design.now) (F.held files.old) (F.faults files.old) (F.faults files.new)) }
    ensures unread { TellsUnread result (F.failures files.old) (F.failures files.new) }
    ensures kept { F.held files.new ≡ F.held files.old }
{
    let text = read(alloc, files, design, DESIGN_BYTES)?;
    match check_text(alloc, &text) {
        Ok(()) => accepted(alloc),
        Err(told) => Err(Refusal::Stop(told)),
    }
}

/// The answer of sharing on a file.
fn shared<'a, F: Files>(
    alloc: Global,
    design: &'a [u8],
    files: &mut F,
) -> Result<Vec<u8>, Refusal<'a>>
    ensures answer { IfOk result (λ text. IsAnswer (F.held files.old) (asked.share design.now) text.items) }
    ensures cause { IfErr result
        (HasCause (asked.share design.now) (F.held files.old) (F.faults files.old) (F.faults files.new)) }
    ensures unread { TellsUnread result (F.failures files.old) (F.failures files.new) }
    ensures kept { F.held files.new ≡ F.held files.old }
{
    let text = read(alloc, files, design, DESIGN_BYTES)?;
    match share(alloc, &text) {
        Ok(answer) => Ok(answer),
        Err(why) => Err(Refusal::Stop(why)),
    }
}

/// The answer of promotion on a file.
fn promoted<'a, F: Files>(
    alloc: Global,
    design: &'a [u8],
    files: &mut F,
) -> Result<Vec<u8>, Refusal<'a>>
    ensures answer { IfOk result (λ text. IsAnswer (F.held files.old) (asked.promote design.now) text.items) }
    ensures cause { IfErr result
        (HasCause (asked.promote design.now) (F.held files.old) (F.faults files.old) (F.faults files.new)) }
    ensures unread { TellsUnread result (F.failures files.old) (F.failures files.new) }
    ensures kept { F.held files.new ≡ F.held files.old }
{
    let text = read(alloc, files, design, DESIGN_BYTES)?;
    match promote(alloc, &text) {
        Ok(answer) => Ok(answer),
        Err(why) => Err(Refusal::Stop(why)),
    }
}

/// The answer of instrumenting on a file.
fn instrumented<'a, F: Files>(
    alloc: Global,
    design: &'a [u8],
    files: &mut F,
) -> Result<Vec<u8>, Refusal<'a>>
    ensures answer { IfOk result (λ text. IsAnswer (F.held files.old) (asked.instrument design.now) text.items) }
    ensures cause { IfErr result (HasCause (asked.instrument design.now) (F.held files.old)
        (F.faults files.old) (F.faults files.new)) }
    ensures unread { TellsUnread result (F.failures files.old) (F.failures files.new) }
    ensures kept { F.held files.new ≡ F.held files.old }
{
    let text = read(alloc, files, design, DESIGN_BYTES)?;
    match instrument(alloc, &text) {
        Ok(verilog) => Ok(verilog),
        Err(why) => Err(Refusal::Stop(why)),
    }
}

/// The answer of the profiler on files.
fn profiled<'a, F: Files>(
    alloc: Global,
    design: &'a [u8],
    json: &'a [u8],
    budget: u64,
    files: &mut F,
) -> Result<Vec<u8>, Refusal<'a>>
    requires budget { budget ≤ BUDGET }
    ensures answer { IfOk result
        (λ text. IsAnswer (F.held files.old) (asked.profile design.now json.now budget) text.items) }
    ensures cause { IfErr result (HasCause (asked.profile design.now json.now budget) (F.held files.old)
        (F.faults files.old) (F.faults files.new)) }
    ensures unread { TellsUnread result (F.failures files.old) (F.failures files.new) }
    ensures kept { F.held files.new ≡ F.held files.old }
{
    let text = read(alloc, files, design, DESIGN_BYTES)?;
    let data = read(alloc, files, json, DATA_BYTES)?;
    match profile(alloc, &text, &data, budget) {
        Ok(answer) => Ok(answer),
        Err(stop) => Err(Refusal::Stop(stop)),
    }
}

/// What is written of an accepted text.
fn accepted<'a>(alloc: Global) -> Result<Vec<u8>, Refusal<'a>>
    ensures answer { IfOk result (λ text. text.items ≡ codes "accepted\n") }
    ensures cause { IfErr result IsMemory }
{
    match Vec::from_slice(alloc, b"accepted\n".as_slice()) {
        Ok(text) => Ok(text),
        Err(_) => Err(Refusal::Stop(Stop::Memory)),
    }
}

/// Reads a file within its limit in bytes.
fn read<'a, F: Files>(
    alloc: Global,
    files: &mut F,
    file: &'a [u8],
    limit: usize,
) -> Result<Vec<u8>, Refusal<'a>>
    ensures held { IfOk result (λ bytes. HoldsWithin (F.held files.old) limit file.now bytes.items) }
    ensures within { IfOk result (λ bytes. length bytes.items ≤ limit) }
    ensures cause { IfErr result (IsOfFile (F.held files.old) (F.faults files.old) (F.faults files.new)
        (record { file = file.now; most = limit })) }
    ensures unread { TellsUnread result (F.failures files.old) (F.failures files.new) }

    ensures kept { F.held files.new ≡ F.held files.old }
    ensures count { F.faults files.old ≤ F.faults files.new }
{
    match files.read_file(alloc, file, limit) {
        Ok(bytes) => Ok(bytes),
        Err(FileAnswer::Failed) => Err(Refusal::ReadFault { file }),
        Err(FileAnswer::TooLong(seen)) => Err(Refusal::TooLong { file, seen }),
        Err(FileAnswer::Memory) => Err(Refusal::Stop(Stop::Memory)),
    }
}
