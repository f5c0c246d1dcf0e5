//! The path of a net from `main`.

ghost use Rattle.std.specs.Prelude.{◌≡◌, ◌<◌, ◌++◌, length, map, slice_get, option_map, IfOk, OnOk};
ghost use Rattle.cx_vtree.specs.PlainParts.{plain_port, plain_decl, plain_module, plain_instance};
ghost use Rattle.cx_vtree.specs.PlainSources.{plain_source};
ghost use Rattle.cx_vtree.specs.InstanceTree.{declared_nets, main_instance, instances_of, nets_at};
ghost use Rattle.cx_velab.specs.Paths.{nets_in, up, dotted, path_of};
ghost use Rattle.cx_velab.specs.Rows.{placed_of};

use crate::tree::{Row, rows};
use cx_text::{Memory, Name};
use cx_vtree::{Decl, Instance, Module, ModulePort, Source};
use std::alloc::Global;

/// `main` as an instance.
fn main_part(alloc: Global) -> Result<Instance, Memory>
    ensures { IfOk result (λ i. plain_instance i ≡ main_instance) }
{
    let module = Name::from_bytes(alloc, b"main")?;
    let name = Name::from_bytes(alloc, b"")?;
    Ok(Instance {
        module,
        name,
        conns: Vec::new(alloc),
    })
}

/// The wire or register of a number.
fn declared(decls: &[Decl], number: usize) -> Option<&Name>
    ensures { option_map (λ n. n.now) result ≡ slice_get (declared_nets (map plain_decl decls.now)) number }
{
    let mut left = number;
    for decl in decls {
        match decl {
            Decl::Wire { name, .. } | Decl::Register { name, .. } => {
                if left == 0 {
                    return Some(name);
                }
                left -= 1;
            }
            Decl::Array { .. } => {}
        }
    }
    None
}

/// The port of a number.
fn port(ports: &[ModulePort], number: usize) -> Option<&Name>
    ensures { option_map (λ n. n.now) result ≡ slice_get (map (λ p. p.name) (map plain_port ports.now)) number }
{
    match ports.get(number) {
        Some(port) => Some(&port.name),
        None => None,
    }
}

/// The net of a number in a module.
fn net(part: &Module, number: usize) -> Option<&Name>
    ensures { option_map (λ n. n.now) result ≡ slice_get (nets_in (plain_module part.now)) number }
{
    if number < part.ports.len() {
        port(&part.ports, number)
    } else {
        declared(&part.decls, number - part.ports.len())
    }
}

/// The instances from one up to the one that stands in `main`.
fn chain(alloc: Global, rows: &[Row<'_>], instance: usize) -> Result<Vec<usize>, Memory>
    ensures { IfOk result (λ c. c.items ≡ up (map placed_of rows.now) instance instance) }
{
    let mut chain = Vec::new(alloc);
    let mut at = instance;
    for steps in 0..instance {
        if at == 0 {
            return Ok(chain);
        }
        match rows.get(at) {
            None => return Ok(chain),
            Some(row) => {
                chain.push(at)?;
                at = row.holder;
            }
        }
    }
    Ok(chain)
}

/// Appends the name of an instance and a dot.
fn append(path: &mut Vec<u8>, rows: &[Row<'_>], instance: usize) -> Result<(), Memory>
    ensures { OnOk result (path.new.items ≡ path.old.items ++ dotted (map placed_of rows.now) instance) }
{
    if let Some(row) = rows.get(instance) {
        path.extend_from_slice(row.instance.name.bytes())?;
        path.push(b'.')?;
    }
    Ok(())
}

/// The bytes of a path.
fn net_path(
    alloc: Global,
    rows: &[Row<'_>],
    instance: usize,
    number: usize,
) -> Result<Vec<u8>, Memory>
    ensures { IfOk result (λ path. path.items ≡ path_of (map placed_of rows.now) instance number) }
{
    let mut chain = chain(alloc, rows, instance)?;
    let mut path = Vec::new(alloc);
    while let Some(at) = chain.pop() {
        append(&mut path, rows, at)?;
    }
    if let Some(row) = rows.get(instance) {
        if let Some(name) = net(row.module, number) {
            path.extend_from_slice(name.bytes())?;
        }
    }
    Ok(path)
}

/// The path of a net of an instance: the names of the instances from `main` down to it, without `main`, and its own, joined
/// by `.`.
pub fn loop_path(source: &Source, instance: u32, net: u32, alloc: Global) -> Result<Name, Memory>
    requires instance { instance < length (instances_of (plain_source source.now)) }
    requires net { net < length (nets_at (instances_of (plain_source source.now)) instance) }
    ensures { IfOk result (λ path. path ≡ path_of (instances_of (plain_source source.now)) instance net) }
{
    let mut roots = Vec::new(alloc);
    roots.push(main_part(alloc)?)?;
    let rows = rows(alloc, source.modules(), &roots)?;
    let path = net_path(alloc, &rows, instance as usize, net as usize)?;
    Name::from_bytes(alloc, &path)
}
