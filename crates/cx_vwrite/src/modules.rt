//! Modules.

ghost use Rattle.std.specs.Prelude.{◌≡◌, ◌++◌, OnOk, codes, map, option_map};
ghost use Rattle.cx_vtree.specs.Lines.{ExternalLine, DeclLine, AssignLine, InstanceLine, SetLine, lines_text};
ghost use Rattle.cx_vtree.specs.PlainParts.{plain_port, plain_decl, plain_assign, plain_instance, plain_item, plain_edge, plain_module, plain_modules, plain_externals};
ghost use Rattle.cx_vtree.specs.Spelling.{port_lines, item_line, edge_lines, module_lines};
ghost use Rattle.cx_vwrite.specs.Pieces.{signature_text, body_text, modules_text};

use crate::lines::{assign, decl, external, instance, item, port, set};
use crate::numbers::push;
use cx_text::{Memory, Name};
use cx_vtree::{Decl, Edge, EdgeItem, External, Instance, Module, ModulePort, NetAssign};

/// Appends the lines of external memories.
pub fn externals(out: &mut Vec<u8>, es: &[External]) -> Result<(), Memory>
    ensures { OnOk result (out.new.items ≡ out.old.items ++ lines_text (map ExternalLine (plain_externals es.now))) }
{
    for e in es {
        external(out, e)?;
    }
    Ok(())
}

/// Appends the lines of ports.
fn ports(out: &mut Vec<u8>, ps: &[ModulePort]) -> Result<(), Memory>
    ensures { OnOk result (out.new.items ≡ out.old.items ++ lines_text (port_lines (map plain_port ps.now))) }
{
    let mut rest = ps;
    while let Some((p, after)) = rest.split_first() {
        port(out, p, !after.is_empty())?;
        rest = after;
    }
    Ok(())
}

/// Appends the lines of declarations.
fn decls(out: &mut Vec<u8>, ds: &[Decl]) -> Result<(), Memory>
    ensures { OnOk result (out.new.items ≡ out.old.items ++ lines_text (map DeclLine (map plain_decl ds.now))) }
{
    for d in ds {
        decl(out, d)?;
    }
    Ok(())
}

/// Appends the lines of assigns.
fn assigns(out: &mut Vec<u8>, list: &[NetAssign]) -> Result<(), Memory>
    ensures { OnOk result (out.new.items ≡ out.old.items ++ lines_text (map AssignLine (map plain_assign list.now))) }
{
    for a in list {
        assign(out, a)?;
    }
    Ok(())
}

/// Appends the lines of instances.
fn instances(out: &mut Vec<u8>, list: &[Instance]) -> Result<(), Memory>
    ensures { OnOk result
        (out.new.items ≡ out.old.items ++ lines_text (map InstanceLine (map plain_instance list.now))) }
{
    for i in list {
        instance(out, i)?;
    }
    Ok(())
}

/// Appends the lines of the branch with reset.
fn sets(out: &mut Vec<u8>, list: &[NetAssign]) -> Result<(), Memory>
    ensures { OnOk result (out.new.items ≡ out.old.items ++ lines_text (map SetLine (map plain_assign list.now))) }
{
    for a in list {
        set(out, a)?;
    }
    Ok(())
}

/// Appends the lines of the branch without reset.
fn items(out: &mut Vec<u8>, list: &[EdgeItem]) -> Result<(), Memory>
    ensures { OnOk result (out.new.items ≡ out.old.items ++ lines_text (map item_line (map plain_item list.now))) }
{
    for i in list {
        item(out, i)?;
    }
    Ok(())
}

/// Appends the lines that open an edge and its branch with reset.
fn edge_begin(out: &mut Vec<u8>) -> Result<(), Memory>
    ensures { OnOk result
        (out.new.items ≡ out.old.items ++ codes "  always @(posedge clk) begin\n    if (reset) begin\n") }
{
    push(
        out,
        b"  always @(posedge clk) begin\n    if (reset) begin\n",
    )
}

/// Appends the line between the branches.
fn edge_else(out: &mut Vec<u8>) -> Result<(), Memory>
    ensures { OnOk result (out.new.items ≡ out.old.items ++ codes "    end else begin\n") }
{
    push(out, b"    end else begin\n")
}

/// Appends the lines that close an edge.
fn edge_end(out: &mut Vec<u8>) -> Result<(), Memory>
    ensures { OnOk result (out.new.items ≡ out.old.items ++ codes "    end\n  end\n") }
{
    push(out, b"    end\n  end\n")
}

/// Appends the lines of an edge.
fn edge(out: &mut Vec<u8>, e: &Edge) -> Result<(), Memory>
    ensures { OnOk result (out.new.items ≡ out.old.items ++ lines_text (edge_lines (Some (plain_edge e.now)))) }
{
    edge_begin(out)?;
    sets(out, &e.reset)?;
    edge_else(out)?;
    items(out, &e.step)?;
    edge_end(out)?;
    Ok(())
}

/// Appends the lines of an edge where there is one.
fn edge_of(out: &mut Vec<u8>, e: &Option<Edge>) -> Result<(), Memory>
    ensures { OnOk result (out.new.items ≡ out.old.items ++ lines_text (edge_lines (option_map plain_edge e.now))) }
{
    match e {
        None => Ok(()),
        Some(e) => edge(out, e),
    }
}

/// Appends the first line of a module.
fn head(out: &mut Vec<u8>, name: &Name) -> Result<(), Memory>
    ensures { OnOk result (out.new.items ≡ out.old.items ++ (codes "module " ++ name.now ++ codes "(\n")) }
{
    push(out, b"module ")?;
    push(out, name.bytes())?;
    push(out, b"(\n")
}

/// Appends the lines of a module's ports and declarations, with its first line.
fn signature(out: &mut Vec<u8>, m: &Module) -> Result<(), Memory>
    ensures { OnOk result (out.new.items ≡ out.old.items ++ signature_text (plain_module m.now)) }
{
    head(out, &m.name)?;
    ports(out, &m.ports)?;
    push(out, b");\n")?;
    decls(out, &m.decls)?;
    Ok(())
}

/// Appends the other lines of a module.
fn body(out: &mut Vec<u8>, m: &Module) -> Result<(), Memory>
    ensures { OnOk result (out.new.items ≡ out.old.items ++ body_text (plain_module m.now)) }
{
    assigns(out, &m.assigns)?;
    instances(out, &m.instances)?;
    edge_of(out, &m.edge)?;
    push(out, b"endmodule\n")?;
    Ok(())
}

/// Appends the lines of a module.
fn whole_module(out: &mut Vec<u8>, m: &Module) -> Result<(), Memory>
    ensures { OnOk result (out.new.items ≡ out.old.items ++ lines_text (module_lines (plain_module m.now))) }
{
    signature(out, m)?;
    body(out, m)?;
    Ok(())
}

/// Appends the lines of modules.
pub fn modules(out: &mut Vec<u8>, ms: &[Module]) -> Result<(), Memory>
    ensures { OnOk result (out.new.items ≡ out.old.items ++ modules_text (plain_modules ms.now)) }
{
    for m in ms {
        whole_module(out, m)?;
    }
    Ok(())
}
