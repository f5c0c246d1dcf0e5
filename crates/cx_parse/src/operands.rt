//! Reading targets and operands.

ghost use Rattle.std.specs.Prelude.{◌≡◌, ℕ, Some};
ghost use Rattle.cx_grammar.specs.Calyx as calyx;
ghost use Rattle.cx_parse.specs.Readings.{Gives, state_of, given};

use crate::readers::{Reader, START};
use cx_ast::{Comparison, OperandForm, OperandItem, TokenKind};
use cx_grammar::Terminal;
use cx_text::Name;

/// The form that is answered where reading has stopped.
const NO_FORM: OperandForm = OperandForm::Literal(0, 0);

/// Reads what follows the first name of a target.
fn reference(reader: &mut Reader, first: Name) -> OperandForm
    ensures value { (levels : ℕ) →
        Gives levels (given first calyx.reference) (state_of reader.old) (state_of reader.new) (Some result) }
{
    if reader.next_is(Terminal::Dot) {
        reader.sign(Terminal::Dot);
        return match reader.name() {
            Some((port, _)) => OperandForm::Port(first, port),
            None => NO_FORM,
        };
    }
    if reader.next_is(Terminal::OpenBracket) {
        reader.sign(Terminal::OpenBracket);
        return match reader.word() {
            Some(hole) => {
                reader.sign(Terminal::CloseBracket);
                OperandForm::Hole(first, hole)
            }
            None => NO_FORM,
        };
    }
    OperandForm::Own(first)
}

/// Reads a target.
pub fn target(reader: &mut Reader) -> OperandItem
    ensures value { (levels : ℕ) → Gives levels calyx.target (state_of reader.old) (state_of reader.new) (Some result) }
{
    match reader.name() {
        Some((first, place)) => {
            let form = reference(reader, first);
            OperandItem { form, place }
        }
        None => OperandItem {
            form: NO_FORM,
            place: START,
        },
    }
}

/// The form that a literal is.
fn literal_of(kind: &TokenKind) -> OperandForm
    ensures value { result ≡ calyx.literal_of kind.now }
{
    match kind {
        TokenKind::Literal(width, value) => OperandForm::Literal(*width, *value),
        _ => NO_FORM,
    }
}

/// Reads a literal.
fn literal(reader: &mut Reader) -> OperandItem
    ensures value { (levels : ℕ) →
        Gives levels calyx.literal (state_of reader.old) (state_of reader.new) (Some result) }
{
    match reader.take(&[Terminal::Literal]) {
        Some(token) => OperandItem {
            form: literal_of(&token.kind),
            place: token.place,
        },
        None => OperandItem {
            form: NO_FORM,
            place: START,
        },
    }
}

/// Reads an operand.
pub fn operand(reader: &mut Reader) -> OperandItem
    ensures value { (levels : ℕ) →
        Gives levels calyx.operand (state_of reader.old) (state_of reader.new) (Some result) }
{
    if reader.next_is(Terminal::Name) {
        target(reader)
    } else {
        literal(reader)
    }
}

/// Reads the sign of a comparison.
pub fn cmp(reader: &mut Reader) -> Comparison
    ensures value { (levels : ℕ) → Gives levels calyx.cmp (state_of reader.old) (state_of reader.new) (Some result) }
{
    if reader.next_is(Terminal::EqualEqual) {
        reader.sign(Terminal::EqualEqual);
        return Comparison::Equal;
    }
    if reader.next_is(Terminal::NotEqual) {
        reader.sign(Terminal::NotEqual);
        return Comparison::NotEqual;
    }
    if reader.next_is(Terminal::Less) {
        reader.sign(Terminal::Less);
        return Comparison::Less;
    }
    if reader.next_is(Terminal::Greater) {
        reader.sign(Terminal::Greater);
        return Comparison::Greater;
    }
    if reader.next_is(Terminal::LessEqual) {
        reader.sign(Terminal::LessEqual);
        return Comparison::LessEqual;
    }
    reader.sign(Terminal::GreaterEqual);
    Comparison::GreaterEqual
}
