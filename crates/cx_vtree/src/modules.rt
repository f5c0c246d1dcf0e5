//! Modules and their parts.

use crate::exprs::Expr;
use cx_text::Name;

/// A port. Widths are in bits.
#[derive(Drop)]
pub struct ModulePort {
    pub output: bool,
    pub name: Name,
    pub width: u8,
}

/// A wire, a register, or an array of `length` words.
#[derive(Drop)]
pub enum Decl {
    Wire { name: Name, width: u8 },
    Register { name: Name, width: u8 },
    Array { name: Name, width: u8, length: u64 },
}

/// A value for a wire, an output or, at an edge, a register.
#[derive(Drop)]
pub struct NetAssign {
    pub name: Name,
    pub value: Expr,
}

/// The net that a port of an instance is connected to.
#[derive(Drop)]
pub struct Conn {
    pub port: Name,
    pub net: Name,
}

/// An instance of a module that ended before.
#[derive(Drop)]
pub struct Instance {
    pub module: Name,
    pub name: Name,
    pub conns: Vec<Conn>,
}

/// What happens at an edge: a register takes a value, or, where the guard is not 0, a word of an array does.
#[derive(Drop)]
pub enum EdgeItem {
    Set(NetAssign),
    Store {
        guard: Expr,
        array: Name,
        index: Expr,
        value: Expr,
    },
}

/// The two branches of a module's edge: with `reset` 1, and without.
#[derive(Drop)]
pub struct Edge {
    pub reset: Vec<NetAssign>,
    pub step: Vec<EdgeItem>,
}

/// A module.
#[derive(Drop)]
pub struct Module {
    pub name: Name,
    pub ports: Vec<ModulePort>,
    pub decls: Vec<Decl>,
    pub assigns: Vec<NetAssign>,
    pub instances: Vec<Instance>,
    pub edge: Option<Edge>,
}
