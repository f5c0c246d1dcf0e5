//! What the drivers of a target come to, and when they are active.

ghost use Rattle.std.specs.Prelude.{◌≡◌};
ghost use Rattle.cx_meaning.specs.Sights as sights;
ghost use Rattle.cx_eval_drives.specs.Drives as drives;
ghost use Rattle.cx_eval_drives.specs.Drives.{offset_by};

use cx_bits::Bits;
use cx_design::{Active, ActiveEntry, Seen};

/// What the drivers of a target come to: one stops it, or those whose guards are 1 agree on what is given.
#[derive(Clone, Copy, Debug, PartialEq, Eq)]
pub enum Drive {
    Stopped(Seen),
    Nothing,
    Gives(Seen),
}

/// The offset of a static group among those that are active.
fn offset_in(entries: &[ActiveEntry], group: usize) -> Option<u64>
    ensures { result ≡ drives.offset_among entries.now group }
{
    for entry in entries {
        if entry.group as usize == group {
            return Some(entry.offset);
        }
    }
    None
}

/// The offset at which the assignments of a group are active, or the continuous ones; None where they are not.
pub fn offset_of(active: &Active, owner: Option<usize>) -> Option<u64>
    ensures { result ≡ offset_by active.now owner }
{
    let Some(group) = owner else {
        return Some(0);
    };
    match active {
        Active::Nothing => None,
        Active::Group(only) | Active::CallEnd(only) => {
            if *only as usize == group {
                Some(0)
            } else {
                None
            }
        }
        Active::Entries(entries) => offset_in(entries, group),
    }
}

/// Puts a value before what is given: the value where both are the same number, and a conflict where they are not.
fn agree_value(first: Bits, given: &mut Seen)
    ensures { given.new ≡ sights.agreed (Seen.Value first) given.old }
{
    match given {
        Seen::Value(second) => {
            if first.value() == second.value() {
                *second = first;
            } else {
                *given = Seen::Conflict;
            }
        }
        Seen::Conflict | Seen::Undefined => {}
    }
}

/// Puts a source before what is given, which becomes what both agree on.
fn agree(first: Seen, given: &mut Seen)
    ensures { given.new ≡ sights.agreed first given.old }
{
    match first {
        Seen::Value(first) => agree_value(first, given),
        Seen::Conflict => *given = Seen::Conflict,
        Seen::Undefined => *given = Seen::Undefined,
    }
}

/// Puts a source whose guard is 1 before what the drive has already.
pub fn add_source(drive: &mut Drive, source: Seen)
    ensures { drive.new ≡ drives.with_source source drive.old }
{
    match drive {
        Drive::Stopped(_) => {}
        Drive::Nothing => *drive = Drive::Gives(source),
        Drive::Gives(given) => agree(source, given),
    }
}
