//! Reading assignments.

ghost use Rattle.std.specs.Prelude.{◌≡◌, Some, map, option_map};
ghost use Rattle.cx_grammar.specs.Calyx as calyx;
ghost use Rattle.cx_ast.specs.PlainGuards.{plain_guard};
ghost use Rattle.cx_ast.specs.PlainTree.{plain_assign};
ghost use Rattle.cx_parse.specs.Readings.{Gives, state_of, given};

use crate::annotations::attributes;
use crate::guards::{
    PREFIXED, compared, conjunction, disjunction, more_comps, more_conjs, prefixed,
};
use crate::operands::{operand, target};
use crate::readers::Reader;
use cx_ast::{AssignItem, Attribute, GuardItem, OperandItem};
use cx_grammar::Terminal;

/// The terminals that go on with a guard behind an operand.
const GUARD_GOES_ON: [Terminal; 9] = [
    Terminal::EqualEqual,
    Terminal::NotEqual,
    Terminal::Less,
    Terminal::Greater,
    Terminal::LessEqual,
    Terminal::GreaterEqual,
    Terminal::And,
    Terminal::Or,
    Terminal::Question,
];

/// The terminals that an assignment begins with.
const ASSIGN: [Terminal; 2] = [Terminal::At, Terminal::Name];

/// A guard, where there is one, and a source.
type Value = (Option<GuardItem>, OperandItem);

/// Reads the rest of a guard behind its first part, and the source.
fn guarded(reader: &mut Reader, levels: u32, first: GuardItem) -> Value
    ensures value { Gives levels (given (plain_guard first) calyx.guarded) (state_of reader.old)
        (state_of reader.new) (Some (option_map plain_guard result.0, result.1)) }
{
    let parts = more_comps(reader, levels, first);
    let parts = more_conjs(reader, levels, conjunction(parts));
    reader.sign(Terminal::Question);
    let source = operand(reader);
    (Some(disjunction(parts)), source)
}

/// Reads what follows the first operand of a value.
fn after_operand(reader: &mut Reader, levels: u32, first: OperandItem) -> Value
    ensures value { Gives levels (given first calyx.after_operand) (state_of reader.old)
        (state_of reader.new) (Some (option_map plain_guard result.0, result.1)) }
{
    if reader.next_in(&GUARD_GOES_ON) {
        let part = compared(reader, first);
        guarded(reader, levels, part)
    } else {
        (None, first)
    }
}

/// Reads what follows the `=` of an assignment.
fn value(reader: &mut Reader, levels: u32) -> Value
    ensures value { Gives levels calyx.value (state_of reader.old) (state_of reader.new)
        (Some (option_map plain_guard result.0, result.1)) }
{
    if reader.next_in(&PREFIXED) {
        let first = prefixed(reader, levels);
        guarded(reader, levels, first)
    } else {
        let first = operand(reader);
        after_operand(reader, levels, first)
    }
}

/// Reads an assignment behind its attributes.
pub fn bare_assign(reader: &mut Reader, levels: u32, attributes: Vec<Attribute>) -> AssignItem
    ensures value { Gives levels (given attributes.items calyx.bare_assign) (state_of reader.old)
        (state_of reader.new) (Some (plain_assign result)) }
{
    let target = target(reader);
    reader.sign(Terminal::Equal);
    let (guard, source) = value(reader, levels);
    reader.sign(Terminal::Semicolon);
    let place = target.place;
    AssignItem {
        attributes,
        target,
        guard,
        source,
        place,
    }
}

/// Reads an assignment.
fn assign(reader: &mut Reader, levels: u32) -> AssignItem
    ensures value { Gives levels calyx.assign (state_of reader.old) (state_of reader.new) (Some (plain_assign result)) }
{
    let attributes = attributes(reader);
    bare_assign(reader, levels, attributes)
}

/// Reads the assignments of a group.
pub fn assigns(reader: &mut Reader, levels: u32) -> Vec<AssignItem>
    ensures value { Gives levels calyx.assigns (state_of reader.old) (state_of reader.new)
        (Some (map plain_assign result.items)) }
{
    let mut all = Vec::new(reader.alloc);
    while reader.next_in(&ASSIGN) {
        let assign = assign(reader, levels);
        reader.keep(&mut all, Some(assign));
    }
    all
}
