//! Control by number, and the groups and static invokes that it needs.

ghost use Rattle.std.specs.Prelude.{◌≡◌, true, false, ◌∷◌, ◌++◌, [], OnOk, IfOk, length, map, option_map};
ghost use Rattle.cx_ast.specs.PlainStatements as written;
ghost use Rattle.cx_meaning.specs.Designs as plain;
ghost use Rattle.cx_design.specs.PlainForms.{plain_form, plain_group, plain_invoke, plain_statement, plain_statements};
ghost use Rattle.cx_numbering.specs.Names.{group_names};
ghost use Rattle.cx_numbering.specs.DesignOf as design;
ghost use Rattle.cx_numbering.specs.DesignOf.{invokes_in, invokes_of, invokes_else, invokes_all, is_static_invoke, invoke_latency};
ghost use Rattle.cx_names.specs.Sites.{IsSite, tree_at, part_at};
ghost use Rattle.cx_names.specs.Calls.{invoke_of};
ghost use Rattle.cx_names.specs.Added.{added, made_of, next_of, statement_of, invokes_at, with_invoke};

use crate::drafts::Draft;
use crate::invokes::{Call, invoke_group};
use crate::numbers::number;
use crate::operands::{group_number, placed};
use crate::sites::Site;
use crate::static_invokes::{captures, static_invoke};
use cx_ast::{Block, StatementForm, StatementItem};
use cx_design::{Form, Statement};
use cx_text::{Memory, Name, Place};
use std::alloc::Global;

// The statements of a block in order. In static control it is static control.
fn in_order(site: &Site, is_static: bool, parts: Vec<Statement>) -> Form
    ensures { plain_form result ≡
        design.seq_form (tree_at site.now) (part_at site.now) is_static (plain_statements parts.items) }
{
    if is_static {
        Form::StaticSeq {
            length: None,
            parts,
        }
    } else {
        Form::Seq(parts)
    }
}

// The statements of a block as one statement.
fn joined(site: &Site, is_static: bool, place: Place, mut parts: Vec<Statement>) -> Statement
    ensures { plain_statement result ≡
        design.of_block (tree_at site.now) (part_at site.now) is_static place (plain_statements parts.items) }
{
    if parts.len() > 1 {
        return at(in_order(site, is_static, parts), place);
    }
    match parts.pop() {
        None => at(Form::Empty, place),
        Some(only) => only,
    }
}

// A form that stands at a place.
fn at(form: Form, place: Place) -> Statement
    ensures { plain_statement result ≡ plain.Placed (plain_form form) place }
{
    Statement { form, place }
}

// The number of the comb group of a condition, where there is one.
fn comb_number(site: &Site, comb: &Option<Name>) -> Result<Option<u32>, Memory>
    requires { IsSite site.now }
    ensures { IfOk result (λ n. n ≡ design.comb_number (tree_at site.now) (part_at site.now) comb.now) }
{
    match comb {
        None => Ok(None),
        Some(group) => Ok(Some(group_number(site, group)?)),
    }
}

// A call is the enable of a group of its own, which is added.
fn called(alloc: Global, site: &Site, draft: &mut Draft, call: Call) -> Result<Form, Memory>
    requires site { IsSite site.now }
    requires dynamic { is_static_invoke (tree_at site.now) (part_at site.now) (invoke_of call) ≡ false }
    ensures value { IfOk result (λ f. plain_form f ≡ plain.Enable (next_of (made_of draft.old)).group) }
    ensures made { OnOk result (made_of draft.new ≡
        with_invoke (tree_at site.now) (part_at site.now) (made_of draft.old) (invoke_of call.entry)) }
{
    let number = number(draft.groups.len())?;
    draft.groups.push(invoke_group(alloc, site, number, call)?)?;
    Ok(Form::Enable(number))
}

// A static invoke is kept by its number; where it captures, the group that does so is added.
fn kept(
    alloc: Global,
    site: &Site,
    draft: &mut Draft,
    call: Call,
    latency: Option<u64>,
) -> Result<Form, Memory>
    requires site { IsSite site.now }
    requires is_static { is_static_invoke (tree_at site.now) (part_at site.now) (invoke_of call) ≡ true }
    requires latency { latency ≡ invoke_latency (tree_at site.now) (part_at site.now) (invoke_of call) }
    ensures value { IfOk result (λ f. plain_form f ≡ plain.Timed (next_of (made_of draft.old)).invoke) }
    ensures made { OnOk result (made_of draft.new ≡
        with_invoke (tree_at site.now) (part_at site.now) (made_of draft.old) (invoke_of call.entry)) }
{
    let captures = captures(alloc, site, &mut draft.groups, call)?;
    let number = number(draft.invokes.len())?;
    let invoke = static_invoke(alloc, site, call, latency, captures)?;
    draft.invokes.push(invoke)?;
    Ok(Form::StaticInvoke(number))
}

// An invoke is a call, or a static one where the word stands there or the cell's component is static.
fn invoke(alloc: Global, site: &Site, draft: &mut Draft, call: Call) -> Result<Form, Memory>
    requires { IsSite site.now }
    ensures value { IfOk result (λ f. plain_form f ≡
        design.invoke_form (tree_at site.now) (part_at site.now)
        (is_static_invoke (tree_at site.now) (part_at site.now) (invoke_of call.entry))
        (next_of (made_of draft.old))) }
    ensures made { OnOk result (made_of draft.new ≡
        added (tree_at site.now) (part_at site.now) (made_of draft.old) (invoke_of call.entry ∷ [])) }
{
    let latency = site.scope.latency(call.cell);
    if call.is_written || latency.is_some() {
        return kept(alloc, site, draft, call, latency);
    }
    called(alloc, site, draft, call)
}

// A statement without its place.
#[cycle(control)]
fn form(
    alloc: Global,
    site: &Site,
    draft: &mut Draft,
    item: &StatementForm,
    place: Place,
) -> Result<Form, Memory>
    requires { IsSite site.now }
    ensures value { IfOk result (λ f. plain_form f ≡
        design.form_of (tree_at site.now) (part_at site.now) (next_of (made_of draft.old)) place
        (written.plain_form item.now)) }
    ensures made { OnOk result (made_of draft.new ≡
        added (tree_at site.now) (part_at site.now) (made_of draft.old)
        (invokes_in (written.plain_form item.now) place)) }
{
    match item {
        StatementForm::Enable { group, .. } => Ok(Form::Enable(group_number(site, group)?)),
        StatementForm::Seq { block, .. } => Ok(Form::Seq(parts(alloc, site, draft, block)?)),
        StatementForm::Par { block, .. } => Ok(Form::Par(parts(alloc, site, draft, block)?)),
        StatementForm::StaticSeq { length, block, .. } => {
            let parts = parts(alloc, site, draft, block)?;
            Ok(Form::StaticSeq {
                length: *length,
                parts,
            })
        }
        StatementForm::StaticPar { length, block, .. } => {
            let parts = parts(alloc, site, draft, block)?;
            Ok(Form::StaticPar {
                length: *length,
                parts,
            })
        }
        StatementForm::If {
            test,
            comb,
            yes,
            no,
        } => {
            let test = placed(site, test)?;
            let comb = comb_number(site, comb)?;
            let yes = boxed_block(alloc, site, draft, false, yes)?;
            let no = otherwise(alloc, site, draft, false, place, no)?;
            Ok(Form::If {
                test,
                comb,
                yes,
                no,
            })
        }
        StatementForm::StaticIf {
            length,
            test,
            yes,
            no,
        } => {
            let test = placed(site, test)?;
            let yes = boxed_block(alloc, site, draft, true, yes)?;
            let no = otherwise(alloc, site, draft, true, place, no)?;
            Ok(Form::StaticIf {
                length: *length,
                test,
                yes,
                no,
            })
        }
        StatementForm::While { test, comb, body } => {
            let test = placed(site, test)?;
            let comb = comb_number(site, comb)?;
            let body = boxed_block(alloc, site, draft, false, body)?;
            Ok(Form::While { test, comb, body })
        }
        StatementForm::Repeat { count, body } => {
            let body = boxed_block(alloc, site, draft, false, body)?;
            Ok(Form::Repeat {
                count: *count,
                body,
            })
        }
        StatementForm::StaticRepeat {
            length,
            count,
            body,
        } => {
            let body = boxed_block(alloc, site, draft, true, body)?;
            Ok(Form::StaticRepeat {
                length: *length,
                count: *count,
                body,
            })
        }
        StatementForm::Invoke {
            cell,
            inputs,
            outputs,
        } => {
            let call = Call {
                cell,
                is_written: false,
                length: None,
                inputs,
                outputs,
                place,
            };
            invoke(alloc, site, draft, call)
        }
        StatementForm::StaticInvoke {
            length,
            cell,
            inputs,
            outputs,
        } => {
            let call = Call {
                cell,
                is_written: true,
                length: *length,
                inputs,
                outputs,
                place,
            };
            invoke(alloc, site, draft, call)
        }
    }
}

// A statement.
#[cycle(control)]
fn statement(
    alloc: Global,
    site: &Site,
    draft: &mut Draft,
    item: &StatementItem,
) -> Result<Statement, Memory>
    requires { IsSite site.now }
    ensures value { IfOk result (λ s. plain_statement s ≡
        statement_of (tree_at site.now) (part_at site.now) (next_of (made_of draft.old))
        (written.plain_statement item.now)) }
    ensures made { OnOk result (made_of draft.new ≡
        added (tree_at site.now) (part_at site.now) (made_of draft.old)
        (invokes_at (written.plain_statement item.now))) }
{
    let form = form(alloc, site, draft, &item.form, item.place)?;
    Ok(Statement {
        form,
        place: item.place,
    })
}

// Statements, in order.
#[cycle(control)]
fn statements(
    alloc: Global,
    site: &Site,
    draft: &mut Draft,
    items: &[StatementItem],
) -> Result<Vec<Statement>, Memory>
    requires { IsSite site.now }
    ensures value { IfOk result (λ all. plain_statements all.items ≡
        design.all_of (tree_at site.now) (part_at site.now) (next_of (made_of draft.old))
        (written.statements_of (written.plain_statements items.now))) }
    ensures made { OnOk result (made_of draft.new ≡
        added (tree_at site.now) (part_at site.now) (made_of draft.old)
        (invokes_all (written.statements_of (written.plain_statements items.now)))) }
{
    let mut all = Vec::with_capacity(alloc, items.len())?;
    for item in items {
        let next = statement(alloc, site, draft, item)?;
        all.push(next)?;
    }
    Ok(all)
}

// The statements of a block, in order.
#[cycle(control)]
fn parts(
    alloc: Global,
    site: &Site,
    draft: &mut Draft,
    block: &Block,
) -> Result<Vec<Statement>, Memory>
    requires { IsSite site.now }
    ensures value { IfOk result (λ all. plain_statements all.items ≡
        design.parts_of (tree_at site.now) (part_at site.now) (next_of (made_of draft.old))
        (written.plain_block block.now)) }
    ensures made { OnOk result (made_of draft.new ≡
        added (tree_at site.now) (part_at site.now) (made_of draft.old)
        (invokes_of (written.plain_block block.now))) }
{
    statements(alloc, site, draft, &block.statements)
}

// A block as one statement.
#[cycle(control)]
fn block(
    alloc: Global,
    site: &Site,
    draft: &mut Draft,
    is_static: bool,
    item: &Block,
) -> Result<Statement, Memory>
    requires { IsSite site.now }
    ensures value { IfOk result (λ s. plain_statement s ≡
        design.block_of (tree_at site.now) (part_at site.now) is_static (next_of (made_of draft.old))
        (written.plain_block item.now)) }
    ensures made { OnOk result (made_of draft.new ≡
        added (tree_at site.now) (part_at site.now) (made_of draft.old)
        (invokes_of (written.plain_block item.now))) }
{
    let all = parts(alloc, site, draft, item)?;
    Ok(joined(site, is_static, item.place, all))
}

// A block as one statement, in a box.
#[cycle(control)]
fn boxed_block(
    alloc: Global,
    site: &Site,
    draft: &mut Draft,
    is_static: bool,
    item: &Block,
) -> Result<Box<Statement>, Memory>
    requires { IsSite site.now }
    ensures value { IfOk result (λ s. plain_statement s.value ≡
        design.block_of (tree_at site.now) (part_at site.now) is_static (next_of (made_of draft.old))
        (written.plain_block item.now)) }
    ensures made { OnOk result (made_of draft.new ≡
        added (tree_at site.now) (part_at site.now) (made_of draft.old)
        (invokes_of (written.plain_block item.now))) }
{
    let statement = block(alloc, site, draft, is_static, item)?;
    Ok(Box::new(alloc, statement)?)
}

// The block behind `else`; an absent one is the empty statement.
#[cycle(control)]
fn otherwise(
    alloc: Global,
    site: &Site,
    draft: &mut Draft,
    is_static: bool,
    place: Place,
    item: &Option<Block>,
) -> Result<Box<Statement>, Memory>
    requires { IsSite site.now }
    ensures value { IfOk result (λ s. plain_statement s.value ≡
        design.else_of (tree_at site.now) (part_at site.now) is_static (next_of (made_of draft.old)) place
        (written.else_of (option_map written.plain_block item.now))) }
    ensures made { OnOk result (made_of draft.new ≡
        added (tree_at site.now) (part_at site.now) (made_of draft.old)
        (invokes_else (written.else_of (option_map written.plain_block item.now)))) }
{
    match item {
        None => {
            let empty = Statement {
                form: Form::Empty,
                place,
            };
            Ok(Box::new(alloc, empty)?)
        }
        Some(item) => {
            let statement = block(alloc, site, draft, is_static, item)?;
            Ok(Box::new(alloc, statement)?)
        }
    }
}

/// The control of a component. The groups of its invokes are added to the others, and the static invokes to none.
pub(crate) fn control(alloc: Global, site: &Site, draft: &mut Draft) -> Result<Statement, Memory>
    requires site { IsSite site.now }
    requires groups { length (map plain_group draft.old.groups.items) ≡ length (group_names (part_at site.now)) }
    requires invokes { map plain_invoke draft.old.invokes.items ≡ [] }
    ensures value { IfOk result (λ s. plain_statement s ≡
        design.control_of (tree_at site.now) (part_at site.now) (part_at site.now).control) }
    ensures groups { OnOk result (map plain_group draft.new.groups.items ≡
        map plain_group draft.old.groups.items ++ design.invoke_groups (tree_at site.now) (part_at site.now)
        (design.first (tree_at site.now) (part_at site.now))
        (design.control_invokes (tree_at site.now) (part_at site.now) (part_at site.now).control)) }
    ensures invokes { OnOk result (map plain_invoke draft.new.invokes.items ≡
        design.static_invokes (tree_at site.now) (part_at site.now)
        (design.first (tree_at site.now) (part_at site.now))
        (design.control_invokes (tree_at site.now) (part_at site.now) (part_at site.now).control)) }
{
    match &site.scope.part.control {
        None => Ok(Statement {
            form: Form::Empty,
            place: site.scope.part.place,
        }),
        Some(item) => {
            let whole = block(alloc, site, draft, false, item)?;
            Ok(whole)
        }
    }
}
