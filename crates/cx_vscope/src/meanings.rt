//! What a part makes its name stand for.

ghost use Rattle.std.specs.Prelude.{◌≡◌};
ghost use Rattle.cx_vtree.specs.InstanceTree.{same_name};
ghost use Rattle.cx_vtree.specs.PlainParts.{plain_port};
ghost use Rattle.cx_vscope.specs.Drafts.{draft_decl};
ghost use Rattle.cx_vtree.specs.Sound as sound;

use crate::drafts::DraftDecl;
use cx_text::Name;
use cx_vtree::{Meaning, ModulePort};

/// Whether two names are one.
pub fn same(a: &Name, b: &Name) -> bool
    ensures { result ≡ same_name a.now b.now }
{
    a.bytes() == b.bytes()
}

/// The name that a declaration makes.
pub fn decl_name(d: &DraftDecl) -> &Name
    ensures { result.now ≡ sound.decl_name (draft_decl d.now) }
{
    match d {
        DraftDecl::Wire { name, .. } => name,
        DraftDecl::Register { name, .. } => name,
        DraftDecl::Array { name, .. } => name,
    }
}

/// What a declaration makes its name stand for.
pub fn decl_meaning(d: &DraftDecl) -> Meaning
    ensures { result ≡ sound.decl_meaning (draft_decl d.now) }
{
    match d {
        DraftDecl::Wire { width, .. } => Meaning::Wire(*width),
        DraftDecl::Register { width, .. } => Meaning::Register(*width),
        DraftDecl::Array { width, .. } => Meaning::Array(*width),
    }
}

/// What a port makes its name stand for.
pub fn port_meaning(p: &ModulePort) -> Meaning
    ensures { result ≡ sound.port_meaning (plain_port p.now) }
{
    if p.output {
        Meaning::Output(p.width)
    } else {
        Meaning::Input(p.width)
    }
}

/// The width in bits; 0 for nothing.
pub fn width_of(meaning: Meaning) -> u8
    ensures { result ≡ sound.width_of meaning }
{
    match meaning {
        Meaning::Input(width)
        | Meaning::Output(width)
        | Meaning::Wire(width)
        | Meaning::Register(width)
        | Meaning::Array(width) => width,
        Meaning::Nothing => 0,
    }
}

/// Whether it is an input, a wire or a register.
pub fn is_source(meaning: Meaning) -> bool
    ensures { result ≡ sound.is_source meaning }
{
    match meaning {
        Meaning::Input(_) | Meaning::Wire(_) | Meaning::Register(_) => true,
        Meaning::Output(_) | Meaning::Array(_) | Meaning::Nothing => false,
    }
}

/// Whether it is an array.
pub fn is_array(meaning: Meaning) -> bool
    ensures { result ≡ sound.is_array meaning }
{
    match meaning {
        Meaning::Array(_) => true,
        Meaning::Input(_)
        | Meaning::Output(_)
        | Meaning::Wire(_)
        | Meaning::Register(_)
        | Meaning::Nothing => false,
    }
}

/// Whether it is a register.
pub fn is_register(meaning: Meaning) -> bool
    ensures { result ≡ sound.is_register meaning }
{
    match meaning {
        Meaning::Register(_) => true,
        Meaning::Input(_)
        | Meaning::Output(_)
        | Meaning::Wire(_)
        | Meaning::Array(_)
        | Meaning::Nothing => false,
    }
}

/// Whether it is a wire or an output, which something drives.
pub fn is_driven(meaning: Meaning) -> bool
    ensures { result ≡ sound.is_driven meaning }
{
    match meaning {
        Meaning::Wire(_) | Meaning::Output(_) => true,
        Meaning::Input(_) | Meaning::Register(_) | Meaning::Array(_) | Meaning::Nothing => false,
    }
}

/// Whether it is a wire.
pub fn is_wire(meaning: Meaning) -> bool
    ensures { result ≡ sound.is_wire meaning }
{
    match meaning {
        Meaning::Wire(_) => true,
        Meaning::Input(_)
        | Meaning::Output(_)
        | Meaning::Register(_)
        | Meaning::Array(_)
        | Meaning::Nothing => false,
    }
}
