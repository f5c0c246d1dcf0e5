//! Reading guards.

ghost use Rattle.std.specs.Prelude.{◌≡◌, ℕ, Some, map};
ghost use Rattle.cx_grammar.specs.Grammar.{Deeper, Negation, Parens};
ghost use Rattle.cx_grammar.specs.Calyx as calyx;
ghost use Rattle.cx_grammar.specs.Calyx.{and_of, or_of};
ghost use Rattle.cx_ast.specs.PlainGuards.{plain_guard};
ghost use Rattle.cx_parse.specs.Readings.{Gives, state_of, given, with_first};

use crate::operands::{cmp, operand};
use crate::readers::Reader;
use cx_ast::{GuardItem, OperandItem};
use cx_grammar::Terminal;

/// The terminals that a guard begins with where it does not begin with an operand.
pub const PREFIXED: [Terminal; 3] = [Terminal::Not, Terminal::OpenParen, Terminal::Percent];

/// The terminals of the comparisons.
const COMPARISONS: [Terminal; 6] = [
    Terminal::EqualEqual,
    Terminal::NotEqual,
    Terminal::Less,
    Terminal::Greater,
    Terminal::LessEqual,
    Terminal::GreaterEqual,
];

/// The guard that is answered where reading has stopped.
const NO_GUARD: GuardItem = GuardItem::At(0);

/// The conjunction of the parts. One part stands for itself.
pub fn conjunction(mut all: Vec<GuardItem>) -> GuardItem
    ensures value { plain_guard result ≡ and_of (map plain_guard all.items) }
{
    if all.len() != 1 {
        return GuardItem::And(all);
    }
    match all.pop() {
        Some(only) => only,
        None => unreachable!(),
    }
}

/// The disjunction of the parts. One part stands for itself.
pub fn disjunction(mut all: Vec<GuardItem>) -> GuardItem
    ensures value { plain_guard result ≡ or_of (map plain_guard all.items) }
{
    if all.len() != 1 {
        return GuardItem::Or(all);
    }
    match all.pop() {
        Some(only) => only,
        None => unreachable!(),
    }
}

/// Reads the cycles of a window between brackets.
fn window_range(reader: &mut Reader) -> GuardItem
    ensures value { (levels : ℕ) → Gives levels calyx.window_range (state_of reader.old)
        (state_of reader.new) (Some (plain_guard result)) }
{
    reader.sign(Terminal::OpenBracket);
    let from = reader.number();
    reader.sign(Terminal::Colon);
    let to = reader.number();
    reader.sign(Terminal::CloseBracket);
    GuardItem::During(from, to)
}

/// Reads a window of cycles.
fn window(reader: &mut Reader) -> GuardItem
    ensures value { (levels : ℕ) →
        Gives levels calyx.window (state_of reader.old) (state_of reader.new) (Some (plain_guard result)) }
{
    reader.sign(Terminal::Percent);
    if reader.next_is(Terminal::Number) {
        GuardItem::At(reader.number())
    } else {
        window_range(reader)
    }
}

/// Reads a negation.
#[cycle(guard)]
fn negation(reader: &mut Reader, levels: u32) -> GuardItem
    ensures value { Gives levels (Deeper Negation) (state_of reader.old) (state_of reader.new)
        (Some (plain_guard result)) }
{
    if levels == 0 {
        reader.no_level(Terminal::Not);
        return NO_GUARD;
    }
    reader.sign(Terminal::Not);
    let guard = unary(reader, levels - 1);
    match Box::new(reader.alloc, guard) {
        Ok(guard) => GuardItem::Not(guard),
        Err(_) => {
            reader.lack();
            NO_GUARD
        }
    }
}

/// Reads a guard in parentheses.
#[cycle(guard)]
fn parens(reader: &mut Reader, levels: u32) -> GuardItem
    ensures value { Gives levels (Deeper Parens) (state_of reader.old) (state_of reader.new)
        (Some (plain_guard result)) }
{
    if levels == 0 {
        reader.no_level(Terminal::OpenParen);
        return NO_GUARD;
    }
    reader.sign(Terminal::OpenParen);
    let guard = guard(reader, levels - 1);
    reader.sign(Terminal::CloseParen);
    guard
}

/// Reads a negation, a guard in parentheses or a window of cycles.
#[cycle(guard)]
pub fn prefixed(reader: &mut Reader, levels: u32) -> GuardItem
    ensures value { Gives levels calyx.prefixed (state_of reader.old) (state_of reader.new)
        (Some (plain_guard result)) }
{
    if reader.next_is(Terminal::Not) {
        negation(reader, levels)
    } else if reader.next_is(Terminal::OpenParen) {
        parens(reader, levels)
    } else {
        window(reader)
    }
}

/// Reads what a negation stands before.
#[cycle(guard)]
fn unary(reader: &mut Reader, levels: u32) -> GuardItem
    ensures value { Gives levels calyx.unary (state_of reader.old) (state_of reader.new) (Some (plain_guard result)) }
{
    if reader.next_in(&PREFIXED) {
        prefixed(reader, levels)
    } else {
        GuardItem::Operand(operand(reader))
    }
}

/// Reads what follows the first operand of a comparison, where it is one.
pub fn compared(reader: &mut Reader, left: OperandItem) -> GuardItem
    ensures value { (levels : ℕ) → Gives levels (given left calyx.compared) (state_of reader.old)
        (state_of reader.new) (Some (plain_guard result)) }
{
    if reader.next_in(&COMPARISONS) {
        let comparison = cmp(reader);
        let right = operand(reader);
        GuardItem::Compare(comparison, left, right)
    } else {
        GuardItem::Operand(left)
    }
}

/// Reads a part of a conjunction.
#[cycle(guard)]
fn comp(reader: &mut Reader, levels: u32) -> GuardItem
    ensures value { Gives levels calyx.comp (state_of reader.old) (state_of reader.new) (Some (plain_guard result)) }
{
    if reader.next_in(&PREFIXED) {
        prefixed(reader, levels)
    } else {
        let left = operand(reader);
        compared(reader, left)
    }
}

/// Reads the parts of a conjunction behind the first.
#[cycle(guard)]
pub fn more_comps(reader: &mut Reader, levels: u32, first: GuardItem) -> Vec<GuardItem>
    ensures value { Gives levels (with_first (plain_guard first) calyx.more_comps) (state_of reader.old)
        (state_of reader.new) (Some (map plain_guard result.items)) }
{
    let mut all = Vec::new(reader.alloc);
    reader.keep(&mut all, Some(first));
    while reader.next_is(Terminal::And) {
        reader.sign(Terminal::And);
        let part = comp(reader, levels);
        reader.keep(&mut all, Some(part));
    }
    all
}

/// Reads a conjunction.
#[cycle(guard)]
fn conj(reader: &mut Reader, levels: u32) -> GuardItem
    ensures value { Gives levels calyx.conj (state_of reader.old) (state_of reader.new) (Some (plain_guard result)) }
{
    let first = comp(reader, levels);
    conjunction(more_comps(reader, levels, first))
}

/// Reads the parts of a disjunction behind the first.
#[cycle(guard)]
pub fn more_conjs(reader: &mut Reader, levels: u32, first: GuardItem) -> Vec<GuardItem>
    ensures value { Gives levels (with_first (plain_guard first) calyx.more_conjs) (state_of reader.old)
        (state_of reader.new) (Some (map plain_guard result.items)) }
{
    let mut all = Vec::new(reader.alloc);
    reader.keep(&mut all, Some(first));
    while reader.next_is(Terminal::Or) {
        reader.sign(Terminal::Or);
        let part = conj(reader, levels);
        reader.keep(&mut all, Some(part));
    }
    all
}

/// Reads a guard.
#[cycle(guard)]
pub fn guard(reader: &mut Reader, levels: u32) -> GuardItem
    ensures value { Gives levels calyx.guard (state_of reader.old) (state_of reader.new) (Some (plain_guard result)) }
{
    let first = conj(reader, levels);
    disjunction(more_conjs(reader, levels, first))
}
