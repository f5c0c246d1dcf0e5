//! What the tables stand for, and that they fit one another.

ghost use Rattle.cx_velab.specs.Covered.{DrivenStand};
ghost use Rattle.cx_velab.specs.Driven.{TiesAreRight, GivensAreRight};
ghost use Rattle.cx_velab.specs.FitsLaws.{NetsFit, AllSetsFit, AllStoresFit, ZerosFit};
ghost use Rattle.cx_velab.specs.Zeros.{ZerosHaveWidths, ZerosStand};

use cx_vnets::code_widths;

/// Zeros stand at the numbers of the nets, with their widths, and they stand for a cycle in which all is 0.
pub fn zeros_stand()
    ensures widths { ZerosHaveWidths }
    ensures values { ZerosStand }
    ensures fits { ZerosFit }
{}

/// Ports that are tied and nets that codes are given to have right drivers, and what was right stays right.
pub fn drivers_are_right()
    ensures ties { TiesAreRight }
    ensures givens { GivensAreRight }
{}

/// Where what is stored, tied and assigned has right drivers, all nets of a tree have.
pub fn driven_nets_stand()
    ensures { DrivenStand }
{}

/// Nets, sets and stores that stand for those of a tree fit what is stored, where that has the widths of the tree.
pub fn tables_fit()
    ensures nets { NetsFit }
    ensures sets { AllSetsFit }
    ensures stores { AllStoresFit }
{
    code_widths();
}
