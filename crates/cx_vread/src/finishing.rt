//! What is kept of a source that breaks no rule: all its numbers are small.

ghost use Rattle.std.specs.Prelude.{◌≡◌, ◌<◌, ◌^◌, nat_lt, map, IfOk, IsTrue};
ghost use Rattle.std.specs.List.{list_all};
ghost use Rattle.cx_vtree.specs.PlainParts.{plain_decl, plain_module, plain_modules, plain_external, plain_externals};
ghost use Rattle.cx_vtree.specs.PlainSources.{plain_source};
ghost use Rattle.cx_vtree.specs.Sound.{is_sound};
ghost use Rattle.cx_vscope.specs.Drafts.{draft_decl, draft_module, draft_modules, draft_sizes, draft_external, draft_externals, draft_source};
ghost use Rattle.cx_vread.specs.Held.{holds_decl, holds_external, holds_module};

use cx_text::Memory;
use cx_vscope::{DraftDecl, DraftExternal, DraftModule, Numeral};
use cx_vtree::{Decl, External, Module, Source};
use std::alloc::Global;

/// A number below 2^64.
#[tactic(auto, using(crate::proofs::SmallNumbers::small_some))]
fn number(n: &Numeral) -> u64
    requires { n.now < 2 ^ 64 }
    ensures { result ≡ n.now }
{
    match n.small() {
        None => unreachable!(),
        Some(n) => n,
    }
}

/// The declaration of a draft whose last index, if it has one, is small.
#[tactic(auto, using(crate::proofs::SmallNumbers::small_last))]
fn finished_decl(d: DraftDecl) -> Decl
    requires { IsTrue (holds_decl (draft_decl d)) }
    ensures { plain_decl result ≡ draft_decl d }
{
    match d {
        DraftDecl::Wire { name, width } => Decl::Wire { name, width },
        DraftDecl::Register { name, width } => Decl::Register { name, width },
        DraftDecl::Array { name, width, last } => Decl::Array {
            name,
            width,
            length: number(&last) + 1,
        },
    }
}

/// The declarations of drafts, in their order.
fn finished_decls(alloc: Global, drafts: Vec<DraftDecl>) -> Result<Vec<Decl>, Memory>
    requires { IsTrue (list_all holds_decl (map draft_decl drafts.items)) }
    ensures { IfOk result (λ decls. map plain_decl decls.items ≡ map draft_decl drafts.items) }
{
    let mut decls = Vec::new(alloc);
    for draft in drafts {
        decls.push(finished_decl(draft))?;
    }
    Ok(decls)
}

/// The module of a draft: all but its declarations stands as it was read.
fn finished_module(alloc: Global, draft: DraftModule) -> Result<Module, Memory>
    requires { IsTrue (holds_module (draft_module draft)) }
    ensures { IfOk result (λ m. plain_module m ≡ draft_module draft) }
{
    let decls = finished_decls(alloc, draft.decls)?;
    Ok(Module {
        name: draft.name,
        ports: draft.ports,
        decls,
        assigns: draft.assigns,
        instances: draft.instances,
        edge: draft.edge,
    })
}

/// The modules of drafts, in their order.
fn finished_modules(alloc: Global, drafts: Vec<DraftModule>) -> Result<Vec<Module>, Memory>
    requires { IsTrue (list_all holds_module (draft_modules drafts.items)) }
    ensures { IfOk result (λ modules. plain_modules modules.items ≡ draft_modules drafts.items) }
{
    let mut modules = Vec::new(alloc);
    for draft in drafts {
        modules.push(finished_module(alloc, draft)?)?;
    }
    Ok(modules)
}

/// Sizes as numbers, in their order.
fn finished_sizes(alloc: Global, drafts: &[Numeral]) -> Result<Vec<u64>, Memory>
    requires { IsTrue (list_all (λ k. nat_lt k 18446744073709551616) (draft_sizes drafts.now)) }
    ensures { IfOk result (λ sizes. sizes.items ≡ draft_sizes drafts.now) }
{
    let mut sizes = Vec::new(alloc);
    for draft in drafts {
        sizes.push(number(draft))?;
    }
    Ok(sizes)
}

/// The external memory of a draft.
fn finished_external(alloc: Global, draft: DraftExternal) -> Result<External, Memory>
    requires { IsTrue (holds_external (draft_external draft)) }
    ensures { IfOk result (λ e. plain_external e ≡ draft_external draft) }
{
    let sizes = finished_sizes(alloc, &draft.sizes)?;
    Ok(External {
        name: draft.name,
        instance: draft.instance,
        width: draft.width,
        sizes,
    })
}

/// The external memories of drafts, in their order.
fn finished_externals(alloc: Global, drafts: Vec<DraftExternal>) -> Result<Vec<External>, Memory>
    requires { IsTrue (list_all holds_external (draft_externals drafts.items)) }
    ensures { IfOk result (λ externals. plain_externals externals.items ≡ draft_externals drafts.items) }
{
    let mut externals = Vec::new(alloc);
    for draft in drafts {
        externals.push(finished_external(alloc, draft)?)?;
    }
    Ok(externals)
}

/// The source of parts that break no rule.
pub fn finished(
    alloc: Global,
    externals: Vec<DraftExternal>,
    modules: Vec<DraftModule>,
) -> Result<Source, Memory>
    requires { IsTrue (is_sound (draft_source externals.items modules.items)) }
    ensures { IfOk result (λ source. plain_source source ≡ draft_source externals.items modules.items) }
{
    let externals = finished_externals(alloc, externals)?;
    let modules = finished_modules(alloc, modules)?;
    Ok(Source::new(externals, modules))
}
