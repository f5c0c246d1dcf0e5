//! How many leaves are open.

ghost use Rattle.std.specs.Prelude.{◌≡◌, ◌+◌};
ghost use Rattle.cx_design_sizes.specs.Capped.{capped};
ghost use Rattle.cx_weave.specs.Ledger.{Kind, arms_amount, arms_box_amount};
ghost use Rattle.cx_weave.specs.Strands.{AreCounted, IsBoth, IsCounted, arms_leaves, plain_arms, plain_strand, strand_leaves};

use crate::strands::{Arms, Strand};

/// The open leaves of a strand; 2^64 - 1 where there are more.
#[cycle(leaves)]
pub(crate) fn count_leaves(strand: &Strand<'_>) -> u64
    ensures { IsCounted (plain_strand strand.now) → result ≡ capped (strand_leaves (plain_strand strand.now)) }
{
    match strand {
        Strand::InSeq { first, .. } => count_leaves(first),
        Strand::InPar(arms) => count_arms(arms),
        Strand::InLoop { run, .. } => count_leaves(run),
        Strand::InRepeat { run, .. } => count_leaves(run),
        Strand::InCall { child, .. } => count_leaves(child),
        Strand::Idling => 1,
        Strand::InGroup(_) => 1,
        Strand::Choosing { .. } => 1,
        Strand::Testing { .. } => 1,
        Strand::InIsland(_) => 1,
        Strand::Capturing { .. } => 1,
        Strand::Closing(_) => 1,
        Strand::Waiting => 1,
    }
}

/// Those of arms.
#[cycle(leaves)]
pub(crate) fn count_arms(arms: &Arms<'_>) -> u64
    ensures { AreCounted (plain_arms arms.now) → result ≡ capped (arms_leaves (plain_arms arms.now)) }
{
    match arms {
        Arms::One(strand) => count_leaves(strand),
        Arms::Both { leaves, .. } => *leaves,
    }
}

/// Two halves of some arms.
pub(crate) fn both<'a>(one: Box<Arms<'a>>, other: Box<Arms<'a>>) -> Arms<'a>
    ensures both { IsBoth (plain_arms one.entry.value) (plain_arms other.entry.value) (plain_arms result) }
    ensures amount { (x : Kind) → arms_amount x result ≡
        (arms_box_amount x + arms_amount x one.entry.value)
        + (arms_box_amount x + arms_amount x other.entry.value) }
{
    let leaves = count_arms(&one).saturating_add(count_arms(&other));
    Arms::Both { leaves, one, other }
}
