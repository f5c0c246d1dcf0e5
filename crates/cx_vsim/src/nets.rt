//! The instance of a net.

ghost use Rattle.std.specs.Prelude.{◌≡◌, ℕ, List, length};
ghost use Rattle.cx_vtree.specs.InstanceTree.{Placed};
ghost use Rattle.cx_vnets.specs.RunsFlat.{IsNet};
ghost use Rattle.cx_velab.specs.Tables.{all_places};

use cx_vnets::NetPosition;

/// The last instance whose nets begin at a number or before it: that of the net of this number.
pub fn instance_of(places: &[NetPosition], net: usize) -> usize
    ensures { (tree : List Placed) (i k : ℕ) → places.now ≡ all_places tree (length tree) →
        IsNet tree net i k → result ≡ i }
{
    let mut found = 0;
    for i in 0..places.len() {
        if places[i].nets as usize <= net {
            found = i;
        }
    }
    found
}
