//! The lines of a module's parts.

ghost use Rattle.std.specs.Prelude.{◌≡◌, ◌++◌, OnOk, codes, map};
ghost use Rattle.cx_vtree.specs.Lines.{ExternalLine, ModuleLine, PortLine, DeclLine, AssignLine, InstanceLine, SetLine, StoreLine, external_text, bounds_text, sizes_text, side_text, comma_text, conn_text, more_conns_text, conns_text, line_text};
ghost use Rattle.cx_vtree.specs.PlainParts.{plain_expr, plain_port, plain_decl, plain_assign, plain_conn, plain_instance, plain_item, plain_external};
ghost use Rattle.cx_vtree.specs.Spelling.{item_line};

use crate::exprs::expr;
use crate::numbers::{decimal, push};
use cx_text::{Memory, Name};
use cx_vtree::{Conn, Decl, EdgeItem, Expr, External, Instance, ModulePort, NetAssign};

/// Appends the sizes of a memory.
fn sizes(out: &mut Vec<u8>, sizes: &[u64]) -> Result<(), Memory>
    ensures { OnOk result (out.new.items ≡ out.old.items ++ sizes_text sizes.now) }
{
    for size in sizes {
        push(out, b" ")?;
        decimal(out, *size)?;
    }
    Ok(())
}

/// Appends a name and a space.
fn word(out: &mut Vec<u8>, name: &Name) -> Result<(), Memory>
    ensures { OnOk result (out.new.items ≡ out.old.items ++ (name.now ++ codes " ")) }
{
    push(out, name.bytes())?;
    push(out, b" ")
}

/// Appends how the line of an external memory begins.
fn comment(out: &mut Vec<u8>) -> Result<(), Memory>
    ensures { OnOk result (out.new.items ≡ out.old.items ++ codes "// external ") }
{
    push(out, b"// external ")
}

/// Appends the words of an external memory's line.
fn external_words(out: &mut Vec<u8>, name: &Name, instance: &Name) -> Result<(), Memory>
    ensures { OnOk result (out.new.items ≡ out.old.items ++ external_text name.now instance.now) }
{
    comment(out)?;
    word(out, name)?;
    word(out, instance)?;
    Ok(())
}

/// Appends the comment line of an external memory.
pub fn external(out: &mut Vec<u8>, e: &External) -> Result<(), Memory>
    ensures { OnOk result
        (out.new.items ≡ out.old.items ++ (line_text (ExternalLine (plain_external e.now)) ++ codes "\n")) }
{
    external_words(out, &e.name, &e.instance)?;
    decimal(out, u64::from(e.width))?;
    sizes(out, &e.sizes)?;
    push(out, b"\n")
}

/// Appends the bounds that stand for a width.
fn bounds(out: &mut Vec<u8>, width: u8) -> Result<(), Memory>
    ensures { OnOk result (out.new.items ≡ out.old.items ++ bounds_text width) }
{
    push(out, b"[")?;
    decimal(out, u64::from(width.saturating_sub(1)))?;
    push(out, b":0] ")
}

/// Appends how the line of a port begins.
fn side(out: &mut Vec<u8>, output: bool) -> Result<(), Memory>
    ensures { OnOk result (out.new.items ≡ out.old.items ++ side_text output) }
{
    if output {
        push(out, b"  output wire ")
    } else {
        push(out, b"  input wire ")
    }
}

/// Appends how the line of a port ends.
fn comma(out: &mut Vec<u8>, more: bool) -> Result<(), Memory>
    ensures { OnOk result (out.new.items ≡ out.old.items ++ (comma_text more ++ codes "\n")) }
{
    if more {
        push(out, b",\n")
    } else {
        push(out, b"\n")
    }
}

/// Appends the line of a port, with a comma where another follows.
pub fn port(out: &mut Vec<u8>, p: &ModulePort, more: bool) -> Result<(), Memory>
    ensures { OnOk result
        (out.new.items ≡ out.old.items ++ (line_text (PortLine (plain_port p.now) more) ++ codes "\n")) }
{
    side(out, p.output)?;
    bounds(out, p.width)?;
    push(out, p.name.bytes())?;
    comma(out, more)
}

/// Appends the line of a declaration.
pub fn decl(out: &mut Vec<u8>, d: &Decl) -> Result<(), Memory>
    ensures { OnOk result (out.new.items ≡ out.old.items ++ (line_text (DeclLine (plain_decl d.now)) ++ codes "\n")) }
{
    match d {
        Decl::Wire { name, width } => {
            push(out, b"  wire ")?;
            bounds(out, *width)?;
            push(out, name.bytes())?;
            push(out, b";\n")
        }
        Decl::Register { name, width } => {
            push(out, b"  reg ")?;
            bounds(out, *width)?;
            push(out, name.bytes())?;
            push(out, b";\n")
        }
        Decl::Array {
            name,
            width,
            length,
        } => {
            push(out, b"  reg ")?;
            bounds(out, *width)?;
            push(out, name.bytes())?;
            push(out, b" [0:")?;
            decimal(out, length.saturating_sub(1))?;
            push(out, b"];\n")
        }
    }
}

/// Appends the line of an assign.
pub fn assign(out: &mut Vec<u8>, a: &NetAssign) -> Result<(), Memory>
    ensures { OnOk result
        (out.new.items ≡ out.old.items ++ (line_text (AssignLine (plain_assign a.now)) ++ codes "\n")) }
{
    push(out, b"  assign ")?;
    push(out, a.name.bytes())?;
    push(out, b" = ")?;
    expr(out, &a.value)?;
    push(out, b";\n")
}

/// Appends a connection.
fn conn(out: &mut Vec<u8>, c: &Conn) -> Result<(), Memory>
    ensures { OnOk result (out.new.items ≡ out.old.items ++ conn_text (plain_conn c.now)) }
{
    push(out, b".")?;
    push(out, c.port.bytes())?;
    push(out, b"(")?;
    push(out, c.net.bytes())?;
    push(out, b")")
}

/// Appends the connections after the first.
fn more_conns(out: &mut Vec<u8>, cs: &[Conn]) -> Result<(), Memory>
    ensures { OnOk result (out.new.items ≡ out.old.items ++ more_conns_text (map plain_conn cs.now)) }
{
    for c in cs {
        push(out, b", ")?;
        conn(out, c)?;
    }
    Ok(())
}

/// Appends connections.
fn conns(out: &mut Vec<u8>, cs: &[Conn]) -> Result<(), Memory>
    ensures { OnOk result (out.new.items ≡ out.old.items ++ conns_text (map plain_conn cs.now)) }
{
    match cs.split_first() {
        None => Ok(()),
        Some((first, rest)) => {
            conn(out, first)?;
            more_conns(out, rest)
        }
    }
}

/// Appends the line of an instance.
pub fn instance(out: &mut Vec<u8>, i: &Instance) -> Result<(), Memory>
    ensures { OnOk result
        (out.new.items ≡ out.old.items ++ (line_text (InstanceLine (plain_instance i.now)) ++ codes "\n")) }
{
    push(out, b"  ")?;
    push(out, i.module.bytes())?;
    push(out, b" ")?;
    push(out, i.name.bytes())?;
    push(out, b"(")?;
    conns(out, &i.conns)?;
    push(out, b");\n")
}

/// Appends the line that sets a register.
pub fn set(out: &mut Vec<u8>, a: &NetAssign) -> Result<(), Memory>
    ensures { OnOk result (out.new.items ≡ out.old.items ++ (line_text (SetLine (plain_assign a.now)) ++ codes "\n")) }
{
    push(out, b"      ")?;
    push(out, a.name.bytes())?;
    push(out, b" <= ")?;
    expr(out, &a.value)?;
    push(out, b";\n")
}

/// Appends the line that stores a word.
fn store(
    out: &mut Vec<u8>,
    guard: &Expr,
    array: &Name,
    index: &Expr,
    value: &Expr,
) -> Result<(), Memory>
    ensures { OnOk result (out.new.items ≡ out.old.items
        ++ (line_text (StoreLine (record {
          guard = plain_expr guard.now;
          array = array.now;
          index = plain_expr index.now;
          value = plain_expr value.now;
        })) ++ codes "\n")) }
{
    push(out, b"      if (")?;
    expr(out, guard)?;
    push(out, b") ")?;
    push(out, array.bytes())?;
    push(out, b"[")?;
    expr(out, index)?;
    push(out, b"] <= ")?;
    expr(out, value)?;
    push(out, b";\n")
}

/// Appends a line of the branch without reset.
pub fn item(out: &mut Vec<u8>, i: &EdgeItem) -> Result<(), Memory>
    ensures { OnOk result (out.new.items ≡ out.old.items ++ (line_text (item_line (plain_item i.now)) ++ codes "\n")) }
{
    match i {
        EdgeItem::Set(a) => set(out, a),
        EdgeItem::Store {
            guard,
            array,
            index,
            value,
        } => store(out, guard, array, index, value),
    }
}
