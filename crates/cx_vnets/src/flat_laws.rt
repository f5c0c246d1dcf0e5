//! The laws: each function does nothing but call others, and its clause is the law.

ghost use Rattle.cx_vnets.specs.FlatLaws.{ValuesAreSame, LoopsAreSame, AllAreNets, WholesAreSame, EdgesAreSame, RunsAreSame};

use crate::codes_have_widths;

/// A net has a value by its number exactly where it has that value by its instance and name.
pub fn values_are_same()
    ensures { ValuesAreSame }
{}

/// The first net without a value is the same by numbers and by instances and names.
pub fn loops_are_same()
    ensures { LoopsAreSame }
{}

/// Each number below the count is that of a net of an instance.
pub fn all_are_nets()
    ensures { AllAreNets }
{}

/// Values are those of all nets by number exactly where they are by instance and name.
pub fn wholes_are_same()
    ensures { WholesAreSame }
{}

/// After an edge the machine has stored what its source has.
pub fn edges_are_same()
    ensures { EdgesAreSame }
{
    codes_have_widths();
}

/// What a run of the machine tells is what the run of its source tells.
pub fn runs_are_same()
    ensures { RunsAreSame }
{
    codes_have_widths();
}
