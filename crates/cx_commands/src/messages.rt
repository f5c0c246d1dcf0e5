//! The line that says why a command has no answer.

ghost use Rattle.std.specs.Prelude.{◌≡◌, ◌++◌, IfOk, codes};
ghost use Rattle.cx_commands.specs.Messages as messages;
ghost use Rattle.cx_commands.specs.Messages.{break_line, data_line, fault_line, line_of, part, place_line, stop_line, text_line, verilog_line};

use crate::refusals::Refusal;
use crate::stops::Stop;
use cx_data::DataFault;
use cx_meaning::FaultKind;
use cx_text::{Diagnostic, Memory};
use cx_vread::ReadRefusal;
use itoa::Buffer;
use std::alloc::Global;

/// The line of a refusal. A part that is empty is left out with the space before it.
pub fn line(alloc: Global, refusal: &Refusal<'_>) -> Result<Vec<u8>, Memory>
    ensures value { IfOk result (λ line. line.items ≡ line_of refusal.now) }
{
    let mut line = Vec::new(alloc);
    push_refusal(&mut line, refusal)?;
    line.push(b'\n')?;
    Ok(line)
}

fn push_refusal(line: &mut Vec<u8>, refusal: &Refusal<'_>) -> Result<(), Memory>
    ensures value { IfOk result (λ _. line.new.items ≡ line.old.items ++ text_line refusal.now) }
{
    match refusal {
        Refusal::TooLong { file, seen } => {
            line.extend_from_slice(b"too-long")?;
            push_part(line, file)?;
            push_number(line, *seen)
        }
        Refusal::ReadFault { file } => push_behind(line, b"read-fault", file),
        Refusal::Stop(stop) => push_stop(line, stop),
    }
}

fn push_stop(line: &mut Vec<u8>, stop: &Stop) -> Result<(), Memory>
    ensures value { IfOk result (λ _. line.new.items ≡ line.old.items ++ stop_line stop.now) }
{
    match stop {
        Stop::Rule(diagnostic) => push_diagnostic(line, diagnostic),
        Stop::Verilog(refusal) => push_read_refusal(line, *refusal),
        Stop::Json(fault) => push_data_fault(line, fault),
        Stop::More(budget) => {
            line.extend_from_slice(b"more")?;
            push_number(line, *budget)
        }
        Stop::Fault { kind, path, turn } => push_fault(line, *kind, path.bytes(), *turn),
        Stop::Loop(path) => push_behind(line, b"loop", path.bytes()),
        Stop::Memory => {
            line.extend_from_slice(b"memory")?;
            Ok(())
        }
    }
}

/// `refused LINE:COLUMN RULE NAME`.
fn push_diagnostic(line: &mut Vec<u8>, diagnostic: &Diagnostic) -> Result<(), Memory>
    ensures value { IfOk result (λ _. line.new.items ≡ line.old.items ++ break_line diagnostic.now) }
{
    line.extend_from_slice(b"refused")?;
    push_number(line, u64::from(diagnostic.place.line))?;
    line.push(b':')?;
    let mut buffer = Buffer::new();
    line.extend_from_slice(buffer.format(diagnostic.place.column).as_bytes())?;
    push_part(line, diagnostic.rule.text().as_bytes())?;
    push_part(line, diagnostic.name.bytes())
}

/// A word, and a part behind it.
fn push_behind(line: &mut Vec<u8>, word: &[u8], piece: &[u8]) -> Result<(), Memory>
    ensures value { IfOk result (λ _. line.new.items ≡ line.old.items ++ (word.now ++ part piece.now)) }
{
    line.extend_from_slice(word)?;
    push_part(line, piece)
}

/// `fault KIND PATH TURN`.
fn push_fault(line: &mut Vec<u8>, kind: FaultKind, path: &[u8], turn: u64) -> Result<(), Memory>
    ensures value { IfOk result (λ _. line.new.items ≡ line.old.items ++ fault_line kind path.now turn) }
{
    line.extend_from_slice(b"fault")?;
    push_counted(line, kind_text(kind).as_bytes(), path, turn)
}

/// A kind of fault as messages write it.
fn kind_text(kind: FaultKind) -> &'static str
    ensures { result.now ≡ messages.kind_text kind }
{
    match kind {
        FaultKind::Conflict => "conflict",
        FaultKind::Undefined => "undefined",
        FaultKind::Range => "range",
    }
}

/// The line of a Verilog text that is refused.
fn push_read_refusal(line: &mut Vec<u8>, refusal: ReadRefusal) -> Result<(), Memory>
    ensures value { IfOk result (λ _. line.new.items ≡ line.old.items ++ verilog_line refusal) }
{
    match refusal {
        ReadRefusal::Syntax(at) => push_place(line, at, b"syntax"),
        ReadRefusal::Name(at) => push_place(line, at, b"name"),
        ReadRefusal::Width(at) => push_place(line, at, b"width"),
        ReadRefusal::Limit(at) => push_place(line, at, b"limit"),
        ReadRefusal::Memory => {
            line.extend_from_slice(b"verilog")?;
            Ok(())
        }
    }
}

/// `verilog LINE:1 KIND`.
fn push_place(line: &mut Vec<u8>, at: u32, kind: &[u8]) -> Result<(), Memory>
    ensures value { IfOk result (λ _. line.new.items ≡ line.old.items ++ place_line at kind.now) }
{
    line.extend_from_slice(b"verilog")?;
    push_number(line, u64::from(at))?;
    line.extend_from_slice(b":1")?;
    push_part(line, kind)
}

/// `data KIND NAME INDEX`.
fn push_data_fault(line: &mut Vec<u8>, fault: &DataFault) -> Result<(), Memory>
    ensures value { IfOk result (λ _. line.new.items ≡ line.old.items ++ data_line fault.now) }
{
    line.extend_from_slice(b"data")?;
    match fault {
        DataFault::NotJson => push_part(line, b"not-json"),
        DataFault::Missing(name) => push_named(line, b"missing", name.bytes()),
        DataFault::BadFormat(name) => push_named(line, b"bad-format", name.bytes()),
        DataFault::WidthDiffers(name) => push_named(line, b"width-differs", name.bytes()),
        DataFault::BadShape(name) => push_named(line, b"bad-shape", name.bytes()),
        DataFault::OutOfRange(name, index) => {
            push_counted(line, b"out-of-range", name.bytes(), *index)?;
            Ok(())
        }
        DataFault::Memory => Ok(()),
    }
}

#[tactic(auto, using(crate::proofs::MessageLemmas::behind_two))]
fn push_counted(line: &mut Vec<u8>, kind: &[u8], name: &[u8], index: u64) -> Result<(), Memory>
    ensures value { IfOk result (λ _.
        line.new.items ≡ line.old.items ++ (part kind.now ++ (part name.now ++ messages.number index))) }
{
    push_named(line, kind, name)?;
    push_number(line, index)?;
    Ok(())
}

fn push_named(line: &mut Vec<u8>, kind: &[u8], name: &[u8]) -> Result<(), Memory>
    ensures value { IfOk result (λ _. line.new.items ≡ line.old.items ++ (part kind.now ++ part name.now)) }
{
    push_part(line, kind)?;
    push_part(line, name)
}

/// Appends a part behind a space, unless it is empty.
#[tactic(auto, using(crate::proofs::MessageLemmas::part_empty, crate::proofs::MessageLemmas::part_whole))]
fn push_part(line: &mut Vec<u8>, piece: &[u8]) -> Result<(), Memory>
    ensures value { IfOk result (λ _. line.new.items ≡ line.old.items ++ part piece.now) }
{
    if piece.is_empty() {
        return Ok(());
    }
    line.push(b' ')?;
    line.extend_from_slice(piece)?;
    Ok(())
}

fn push_number(line: &mut Vec<u8>, number: u64) -> Result<(), Memory>
    ensures value { IfOk result (λ _. line.new.items ≡ line.old.items ++ messages.number number) }
{
    let mut buffer = Buffer::new();
    push_part(line, buffer.format(number).as_bytes())
}
