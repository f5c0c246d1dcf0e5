//! The rules on external memories.

ghost use Rattle.std.specs.Prelude.{◌≡◌, suc, [], map, option_map, codes, IfOk};
ghost use Rattle.cx_text.specs.Loading.{word_count};
ghost use Rattle.std.specs.Option.{option_copied};
ghost use Rattle.cx_vtree.specs.PlainParts.{plain_instance};
ghost use Rattle.cx_vscope.specs.Drafts.{draft_decl, draft_module, draft_modules, draft_sizes, draft_external, draft_externals};
ghost use Rattle.cx_vtree.specs.Sound as sound;
ghost use Rattle.cx_vsound.specs.Arrays.{arrays_among, one_more, other_length, other_width, seen};
ghost use Rattle.cx_vsound.specs.Firsts.{main_instances};
ghost use Rattle.cx_vsound.specs.Parts.{external_faults_by};
ghost use Rattle.cx_vsound.specs.Search.{faults_in, over};

use crate::earlier::{Earlier, Instances, all_modules};
use crate::products::ends_at;
use crate::search::{LineFaults, Search, after};
use cx_text::{DATA_WORD_BITS, Memory};
use cx_vscope::{DraftDecl, DraftExternal, DraftModule, Names, Numeral};
use cx_vtree::Instance;
use std::alloc::Global;

/// The arrays of a module: none, one of a width with the number of its last word, or several.
#[derive(Clone, Copy)]
pub enum Arrays<'a> {
    Empty,
    One(u8, &'a Numeral),
    Several,
}

fn add_array<'a>(arrays: Arrays<'a>, width: u8, last: &'a Numeral) -> Arrays<'a>
    ensures { seen result ≡ one_more (seen arrays.entry) width (suc last.now) }
{
    match arrays {
        Arrays::Empty => Arrays::One(width, last),
        Arrays::One(_, _) | Arrays::Several => Arrays::Several,
    }
}

fn arrays_in(decls: &[DraftDecl]) -> Arrays<'_>
    ensures { seen result ≡ arrays_among (sound.arrays_in (map draft_decl decls.now)) }
{
    let mut arrays = Arrays::Empty;
    for d in decls {
        if let DraftDecl::Array { width, last, .. } = d {
            arrays = add_array(arrays, *width, last);
        }
    }
    arrays
}

/// The module `main`: the last one of this name.
fn main_module(modules: &[DraftModule]) -> Option<&DraftModule>
    ensures { option_map draft_module (option_copied result) ≡
        sound.last_named (draft_modules modules.now) (codes "main") }
{
    let mut found = None;
    for m in modules {
        if m.name.bytes() == b"main".as_slice() {
            found = Some(m);
        }
    }
    found
}

/// The instances of `main`; none where there is no such module.
fn main_instances(modules: &[DraftModule]) -> &[Instance]
    ensures { map plain_instance result.now ≡ main_instances (draft_modules modules.now) }
{
    match main_module(modules) {
        None => &[],
        Some(m) => &m.instances,
    }
}

/// The module of an external memory's instance, one of those of `main`.
fn memory_module<'a>(
    modules: &Earlier<'a>,
    instances: &Instances,
    e: &DraftExternal,
) -> Option<&'a DraftModule>
    requires { instances.now ≡ main_instances (draft_modules modules.now) }
    ensures { option_map draft_module (option_copied result) ≡
        sound.memory_module (draft_modules modules.now) (draft_external e.now) }
{
    match instances.kind(&e.instance) {
        None => None,
        Some(kind) => modules.named(kind),
    }
}

/// The arrays of the module of an external memory's instance.
fn memory_arrays<'a>(modules: &Earlier<'a>, instances: &Instances, e: &DraftExternal) -> Arrays<'a>
    requires { instances.now ≡ main_instances (draft_modules modules.now) }
    ensures { seen result ≡ arrays_among (sound.memory_arrays (draft_modules modules.now) (draft_external e.now)) }
{
    match memory_module(modules, instances, e) {
        None => Arrays::Empty,
        Some(m) => arrays_in(&m.decls),
    }
}

fn is_other_length(alloc: Global, arrays: Arrays, sizes: &[Numeral]) -> Result<bool, Memory>
    ensures { IfOk result (λ other. other ≡ other_length (seen arrays.entry) (word_count (draft_sizes sizes.now))) }
{
    match arrays {
        Arrays::Empty | Arrays::Several => Ok(true),
        Arrays::One(_, last) => Ok(!ends_at(alloc, sizes, last)?),
    }
}

fn is_other_width(arrays: Arrays, width: u8) -> bool
    ensures { result ≡ other_width (seen arrays.entry) width }
{
    match arrays {
        Arrays::Empty | Arrays::Several => false,
        Arrays::One(word, _) => word != width,
    }
}

/// What the line of an external memory breaks, where it is known whether its length or its width is another's.
fn faults_by(
    names: &Names,
    instances: &Names,
    e: &DraftExternal,
    other_length: bool,
    other_width: bool,
) -> LineFaults
    ensures { faults_in result ≡
        external_faults_by other_length other_width names.now instances.now (draft_external e.now) }
{
    LineFaults {
        name: names.has(&e.name) || instances.has(&e.instance) || other_length,
        width: e.width > DATA_WORD_BITS || other_width,
        limit: false,
    }
}

fn external_faults(
    alloc: Global,
    modules: &Earlier,
    instances: &Instances,
    names: &Names,
    taken: &Names,
    e: &DraftExternal,
) -> Result<LineFaults, Memory>
    requires { instances.now ≡ main_instances (draft_modules modules.now) }
    ensures { IfOk result (λ f. faults_in f ≡
        sound.external_faults (draft_modules modules.now) names.now taken.now (draft_external e.now)) }
{
    let arrays = memory_arrays(modules, instances, e);
    let other_length = is_other_length(alloc, arrays, &e.sizes)?;
    let other_width = is_other_width(arrays, e.width);
    Ok(faults_by(names, taken, e, other_length, other_width))
}

/// Goes on past the lines of external memories, where the instances of `main` are known.
fn external_lines(
    alloc: Global,
    search: Search,
    modules: &Earlier,
    instances: &Instances,
    externals: &[DraftExternal],
) -> Result<Search, Memory>
    requires { instances.now ≡ main_instances (draft_modules modules.now) }
    ensures { IfOk result (λ s. s ≡ over search
        (sound.externals_faults (draft_modules modules.now) [] [] (draft_externals externals.now))) }
{
    let mut search = search;
    let mut names = Names::new(alloc);
    let mut taken = Names::new(alloc);
    for e in externals {
        let faults = external_faults(alloc, modules, instances, &names, &taken, e)?;
        search = after(search, faults);
        names.push(&e.name)?;
        taken.push(&e.instance)?;
    }
    Ok(search)
}

/// Goes on past the lines of external memories.
pub fn externals(
    alloc: Global,
    search: Search,
    modules: &[DraftModule],
    externals: &[DraftExternal],
) -> Result<Search, Memory>
    ensures { IfOk result (λ s. s ≡ over search
        (sound.externals_faults (draft_modules modules.now) [] [] (draft_externals externals.now))) }
{
    let all = all_modules(alloc, modules)?;
    let instances = Instances::new(alloc, main_instances(modules))?;
    external_lines(alloc, search, &all, &instances, externals)
}
