//! Nets, instances and words over the tree of a module.

ghost use Rattle.std.specs.Prelude.{◌≡◌, ◌^◌, ◌-◌, suc, min, map};
ghost use Rattle.cx_vtree.specs.PlainParts.{plain_instance};
ghost use Rattle.cx_vscope.specs.Drafts.{draft_decl, draft_module, draft_modules};
ghost use Rattle.cx_vtree.specs.Sound as sound;
ghost use Rattle.cx_vsound.specs.Parts.{counts_in};

use crate::earlier::Earlier;
use cx_text::{MEMORY_WORDS, Name, VERILOG_INSTANCES, VERILOG_NETS};
use cx_vscope::{DraftDecl, DraftModule, Numeral};
use cx_vtree::Instance;

/// Counts over a tree of instances. They stop at 2^64 - 1.
#[derive(Clone, Copy, Debug, PartialEq, Eq)]
pub struct Sums {
    pub nets: u64,
    pub instances: u64,
    pub words: u64,
}

fn sum(a: Sums, b: Sums) -> Sums
    ensures { counts_in result ≡ sound.sum_counts (counts_in a) (counts_in b) }
{
    Sums {
        nets: a.nets.saturating_add(b.nets),
        instances: a.instances.saturating_add(b.instances),
        words: a.words.saturating_add(b.words),
    }
}

/// The words of an array, or 2^64 - 1 where there are more.
fn words_to(last: &Numeral) -> u64
    ensures { result ≡ min (suc last.now) (2 ^ 64 - 1) }
{
    match last.small() {
        None => u64::MAX,
        Some(last) => last.saturating_add(1),
    }
}

/// With the counts of a declaration.
#[tactic(auto, using(crate::proofs::Memories::sum_capped))]
fn with_decl(sums: Sums, d: &DraftDecl) -> Sums
    ensures { counts_in result ≡ sound.sum_counts (counts_in sums) (sound.decl_counts (draft_decl d.now)) }
{
    let own = match d {
        DraftDecl::Wire { .. } | DraftDecl::Register { .. } => Sums {
            nets: 1,
            instances: 0,
            words: 0,
        },
        DraftDecl::Array { last, .. } => Sums {
            nets: 0,
            instances: 0,
            words: words_to(last),
        },
    };
    sum(sums, own)
}

fn decls_counts(start: Sums, decls: &[DraftDecl]) -> Sums
    ensures { counts_in result ≡ sound.decls_counts (counts_in start) (map draft_decl decls.now) }
{
    let mut sums = start;
    for d in decls {
        sums = with_decl(sums, d);
    }
    sums
}

/// The counts of the module of a name, among those before.
fn counts_named(before: &Earlier, counts: &[Sums], name: &Name) -> Sums
    ensures { counts_in result ≡ sound.counts_named (draft_modules before.now) (map counts_in counts.now) name.now }
{
    let none = Sums {
        nets: 0,
        instances: 0,
        words: 0,
    };
    let Some(number) = before.number(name) else {
        return none;
    };
    match counts.get(number) {
        None => none,
        Some(sums) => *sums,
    }
}

fn instances_counts(before: &Earlier, counts: &[Sums], start: Sums, instances: &[Instance]) -> Sums
    ensures { counts_in result ≡ sound.instances_counts (draft_modules before.now)
        (map counts_in counts.now) (counts_in start) (map plain_instance instances.now) }
{
    let mut sums = start;
    for i in instances {
        sums = sum(sums, counts_named(before, counts, &i.module));
    }
    sums
}

/// The counts of a module, with those of its instances.
pub fn module_counts(before: &Earlier, counts: &[Sums], m: &DraftModule) -> Sums
    ensures { counts_in result ≡
        sound.module_counts (draft_modules before.now) (map counts_in counts.now) (draft_module m.now) }
{
    let own = Sums {
        nets: m.ports.len() as u64,
        instances: 1,
        words: 0,
    };
    instances_counts(before, counts, decls_counts(own, &m.decls), &m.instances)
}

/// Whether a tree has more nets, instances or words than a text may have.
pub fn too_large(sums: Sums) -> bool
    ensures { result ≡ sound.too_large (counts_in sums) }
{
    sums.nets > VERILOG_NETS || sums.instances > VERILOG_INSTANCES || sums.words > MEMORY_WORDS
}
