//! Reading control.

ghost use Rattle.std.specs.Prelude.{◌≡◌, ℕ, Some, map, option_map};
ghost use Rattle.cx_grammar.specs.Grammar.{Deeper, Braces};
ghost use Rattle.cx_grammar.specs.Calyx as calyx;
ghost use Rattle.cx_ast.specs.PlainStatements.{plain_block, plain_form, plain_statement};
ghost use Rattle.cx_parse.specs.Readings.{Gives, GivesCommas, state_of, given};

use crate::annotations::{attributes, marks, optional_length};
use crate::operands::operand;
use crate::readers::{Reader, START};
use cx_ast::{BindItem, Block, Mark, StatementForm, StatementItem};
use cx_grammar::Terminal;
use cx_text::{Name, Place};

/// The terminals that a statement begins with.
const STATEMENT: [Terminal; 9] = [
    Terminal::At,
    Terminal::Name,
    Terminal::Seq,
    Terminal::Par,
    Terminal::If,
    Terminal::While,
    Terminal::Repeat,
    Terminal::Invoke,
    Terminal::Static,
];

/// Reads a bind.
fn bind(reader: &mut Reader) -> Option<BindItem>
    ensures value { (levels : ℕ) → Gives levels calyx.bind (state_of reader.old) (state_of reader.new) result }
{
    let (name, place) = reader.name()?;
    reader.sign(Terminal::Equal);
    let value = operand(reader);
    Some(BindItem { name, value, place })
}

/// Reads the binds behind the first. A comma may stand behind the last.
fn more_binds(reader: &mut Reader, first: BindItem) -> Vec<BindItem>
    ensures value { (levels : ℕ) →
        GivesCommas levels calyx.bind first (state_of reader.old) (state_of reader.new) result.items }
{
    let mut all = Vec::new(reader.alloc);
    reader.keep(&mut all, Some(first));
    while reader.next_is(Terminal::Comma) {
        reader.sign(Terminal::Comma);
        if !reader.next_is(Terminal::Name) {
            return all;
        }
        let bind = bind(reader);
        reader.keep(&mut all, bind);
    }
    all
}

/// Reads the binds between parentheses.
fn some_binds(reader: &mut Reader) -> Vec<BindItem>
    ensures value { (levels : ℕ) →
        Gives levels calyx.some_binds (state_of reader.old) (state_of reader.new) (Some result.items) }
{
    if !reader.next_is(Terminal::Name) {
        return Vec::new(reader.alloc);
    }
    match bind(reader) {
        Some(first) => more_binds(reader, first),
        None => Vec::new(reader.alloc),
    }
}

/// Reads binds and their parentheses.
fn binds(reader: &mut Reader) -> Vec<BindItem>
    ensures value { (levels : ℕ) →
        Gives levels calyx.binds (state_of reader.old) (state_of reader.new) (Some result.items) }
{
    reader.sign(Terminal::OpenParen);
    let all = some_binds(reader);
    reader.sign(Terminal::CloseParen);
    all
}

/// Reads the comb group behind a condition, where there is one.
fn comb(reader: &mut Reader) -> Option<Name>
    ensures value { (levels : ℕ) → Gives levels calyx.comb (state_of reader.old) (state_of reader.new) (Some result) }
{
    if !reader.next_is(Terminal::With) {
        return None;
    }
    reader.sign(Terminal::With);
    match reader.name() {
        Some((name, _)) => Some(name),
        None => None,
    }
}

/// Reads a block.
#[cycle(statement)]
pub fn block(reader: &mut Reader, levels: u32) -> Block
    ensures value { Gives levels (Deeper Braces) (state_of reader.old) (state_of reader.new)
        (Some (plain_block result)) }
{
    if levels == 0 {
        reader.no_level(Terminal::OpenBrace);
        return Block {
            statements: Vec::new(reader.alloc),
            place: START,
        };
    }
    let place = reader.sign(Terminal::OpenBrace);
    let statements = statements(reader, levels - 1);
    reader.sign(Terminal::CloseBrace);
    Block { statements, place }
}

/// Reads the block behind `else`, where there is one.
#[cycle(statement)]
fn otherwise(reader: &mut Reader, levels: u32) -> Option<Block>
    ensures value { Gives levels calyx.otherwise (state_of reader.old) (state_of reader.new)
        (Some (option_map plain_block result)) }
{
    if !reader.next_is(Terminal::Else) {
        return None;
    }
    reader.sign(Terminal::Else);
    Some(block(reader, levels))
}

/// Reads marks and a block.
#[cycle(statement)]
fn marked_block(reader: &mut Reader, levels: u32) -> (Vec<Mark>, Block)
    ensures value { Gives levels calyx.marked_block (state_of reader.old) (state_of reader.new)
        (Some (result.0.items, plain_block result.1)) }
{
    let marks = marks(reader);
    let block = block(reader, levels);
    (marks, block)
}

/// Reads the count and the body of a `repeat`.
#[cycle(statement)]
fn repeat_rest(reader: &mut Reader, levels: u32) -> (u64, Block)
    ensures value { Gives levels calyx.repeat_rest (state_of reader.old) (state_of reader.new)
        (Some (result.0, plain_block result.1)) }
{
    let count = reader.number();
    let body = block(reader, levels);
    (count, body)
}

/// Reads the cell of an `invoke` and its binds.
fn invoke_rest(reader: &mut Reader) -> Option<(Name, Vec<BindItem>, Vec<BindItem>, Place)>
    ensures value { (levels : ℕ) → Gives levels calyx.invoke_rest (state_of reader.old)
        (state_of reader.new) (option_map (λ x. ((x.0, x.3), (x.1.items, x.2.items))) result) }
{
    let (cell, place) = reader.name()?;
    let inputs = binds(reader);
    let outputs = binds(reader);
    reader.sign(Terminal::Semicolon);
    Some((cell, inputs, outputs, place))
}

/// Reads a static `if`.
#[cycle(statement)]
fn static_if(reader: &mut Reader, levels: u32, length: Option<u64>) -> StatementForm
    ensures value { Gives levels (given length calyx.static_if_rest) (state_of reader.old)
        (state_of reader.new) (Some (plain_form result)) }
{
    let test = operand(reader);
    let yes = block(reader, levels);
    let no = otherwise(reader, levels);
    StatementForm::StaticIf {
        length,
        test,
        yes,
        no,
    }
}

/// Reads what follows `static` and its length.
#[cycle(statement)]
fn static_rest(reader: &mut Reader, levels: u32, length: Option<u64>) -> Option<StatementForm>
    ensures value { Gives levels (given length calyx.static_rest) (state_of reader.old)
        (state_of reader.new) (option_map plain_form result) }
{
    if reader.next_is(Terminal::Seq) {
        reader.sign(Terminal::Seq);
        let (marks, block) = marked_block(reader, levels);
        return Some(StatementForm::StaticSeq {
            length,
            marks,
            block,
        });
    }
    if reader.next_is(Terminal::Par) {
        reader.sign(Terminal::Par);
        let (marks, block) = marked_block(reader, levels);
        return Some(StatementForm::StaticPar {
            length,
            marks,
            block,
        });
    }
    if reader.next_is(Terminal::If) {
        reader.sign(Terminal::If);
        return Some(static_if(reader, levels, length));
    }
    if reader.next_is(Terminal::Repeat) {
        reader.sign(Terminal::Repeat);
        let (count, body) = repeat_rest(reader, levels);
        return Some(StatementForm::StaticRepeat {
            length,
            count,
            body,
        });
    }
    reader.sign(Terminal::Invoke);
    let (cell, inputs, outputs, _) = invoke_rest(reader)?;
    Some(StatementForm::StaticInvoke {
        length,
        cell,
        inputs,
        outputs,
    })
}

/// Reads the enable of a group.
fn enable(reader: &mut Reader) -> Option<(StatementForm, Place)>
    ensures value { (levels : ℕ) → Gives levels calyx.enable (state_of reader.old) (state_of reader.new)
        (option_map (λ x. (plain_form x.0, x.1)) result) }
{
    let (group, place) = reader.name()?;
    let marks = marks(reader);
    reader.sign(Terminal::Semicolon);
    Some((StatementForm::Enable { group, marks }, place))
}

/// Reads a `seq`.
#[cycle(statement)]
fn seq(reader: &mut Reader, levels: u32) -> (StatementForm, Place)
    ensures value { Gives levels calyx.seq (state_of reader.old) (state_of reader.new)
        (Some (plain_form result.0, result.1)) }
{
    let place = reader.sign(Terminal::Seq);
    let (marks, block) = marked_block(reader, levels);
    (StatementForm::Seq { marks, block }, place)
}

/// Reads a `par`.
#[cycle(statement)]
fn par(reader: &mut Reader, levels: u32) -> (StatementForm, Place)
    ensures value { Gives levels calyx.par (state_of reader.old) (state_of reader.new)
        (Some (plain_form result.0, result.1)) }
{
    let place = reader.sign(Terminal::Par);
    let (marks, block) = marked_block(reader, levels);
    (StatementForm::Par { marks, block }, place)
}

/// Reads an `if`.
#[cycle(statement)]
fn if_form(reader: &mut Reader, levels: u32) -> (StatementForm, Place)
    ensures value { Gives levels calyx.if_form (state_of reader.old) (state_of reader.new)
        (Some (plain_form result.0, result.1)) }
{
    let place = reader.sign(Terminal::If);
    let test = operand(reader);
    let comb = comb(reader);
    let yes = block(reader, levels);
    let no = otherwise(reader, levels);
    let form = StatementForm::If {
        test,
        comb,
        yes,
        no,
    };
    (form, place)
}

/// Reads a `while`.
#[cycle(statement)]
fn while_form(reader: &mut Reader, levels: u32) -> (StatementForm, Place)
    ensures value { Gives levels calyx.while_form (state_of reader.old) (state_of reader.new)
        (Some (plain_form result.0, result.1)) }
{
    let place = reader.sign(Terminal::While);
    let test = operand(reader);
    let comb = comb(reader);
    let body = block(reader, levels);
    (StatementForm::While { test, comb, body }, place)
}

/// Reads a `repeat`.
#[cycle(statement)]
fn repeat(reader: &mut Reader, levels: u32) -> (StatementForm, Place)
    ensures value { Gives levels calyx.repeat (state_of reader.old) (state_of reader.new)
        (Some (plain_form result.0, result.1)) }
{
    let place = reader.sign(Terminal::Repeat);
    let (count, body) = repeat_rest(reader, levels);
    (StatementForm::Repeat { count, body }, place)
}

/// Reads an `invoke`.
fn invoke(reader: &mut Reader) -> Option<(StatementForm, Place)>
    ensures value { (levels : ℕ) → Gives levels calyx.invoke (state_of reader.old) (state_of reader.new)
        (option_map (λ x. (plain_form x.0, x.1)) result) }
{
    let place = reader.sign(Terminal::Invoke);
    let (cell, inputs, outputs, _) = invoke_rest(reader)?;
    let form = StatementForm::Invoke {
        cell,
        inputs,
        outputs,
    };
    Some((form, place))
}

/// Reads a static statement.
#[cycle(statement)]
fn static_statement(reader: &mut Reader, levels: u32) -> Option<(StatementForm, Place)>
    ensures value { Gives levels calyx.static_statement (state_of reader.old) (state_of reader.new)
        (option_map (λ x. (plain_form x.0, x.1)) result) }
{
    let place = reader.sign(Terminal::Static);
    let length = optional_length(reader);
    let form = static_rest(reader, levels, length)?;
    Some((form, place))
}

/// Reads a statement behind its attributes, with its place.
#[cycle(statement)]
fn form(reader: &mut Reader, levels: u32) -> Option<(StatementForm, Place)>
    ensures value { Gives levels calyx.form (state_of reader.old) (state_of reader.new)
        (option_map (λ x. (plain_form x.0, x.1)) result) }
{
    if reader.next_is(Terminal::Name) {
        return enable(reader);
    }
    if reader.next_is(Terminal::Seq) {
        return Some(seq(reader, levels));
    }
    if reader.next_is(Terminal::Par) {
        return Some(par(reader, levels));
    }
    if reader.next_is(Terminal::If) {
        return Some(if_form(reader, levels));
    }
    if reader.next_is(Terminal::While) {
        return Some(while_form(reader, levels));
    }
    if reader.next_is(Terminal::Repeat) {
        return Some(repeat(reader, levels));
    }
    if reader.next_is(Terminal::Invoke) {
        return invoke(reader);
    }
    static_statement(reader, levels)
}

/// Reads a statement.
#[cycle(statement)]
fn statement(reader: &mut Reader, levels: u32) -> Option<StatementItem>
    ensures value { Gives levels calyx.statement (state_of reader.old) (state_of reader.new)
        (option_map plain_statement result) }
{
    let attributes = attributes(reader);
    let (form, place) = form(reader, levels)?;
    Some(StatementItem {
        attributes,
        form,
        place,
    })
}

/// Reads the statements of a block.
#[cycle(statement)]
fn statements(reader: &mut Reader, levels: u32) -> Vec<StatementItem>
    ensures value { Gives levels calyx.statements (state_of reader.old) (state_of reader.new)
        (Some (map plain_statement result.items)) }
{
    let mut all = Vec::new(reader.alloc);
    while reader.next_in(&STATEMENT) {
        let statement = statement(reader, levels);
        reader.keep(&mut all, statement);
    }
    all
}

/// Reads the part `control`, where there is one.
pub fn control(reader: &mut Reader, levels: u32) -> Option<Block>
    ensures value { Gives levels calyx.control (state_of reader.old) (state_of reader.new)
        (Some (option_map plain_block result)) }
{
    if !reader.next_is(Terminal::Control) {
        return None;
    }
    reader.sign(Terminal::Control);
    Some(block(reader, levels))
}
