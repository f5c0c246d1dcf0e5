//! A law: the function does nothing but call others, and its clause is the law.

ghost use Rattle.std.specs.Prelude.{◌≡◌, ℕ, Some};
ghost use Rattle.cx_prim.specs.Table.{PrimitiveRow, row_of};
ghost use Rattle.cx_meaning.specs.Designs.{OfPrimitive};
ghost use Rattle.cx_eval_drives.specs.Gathers.{AreWide, ports_seen};
ghost use Rattle.cx_eval_network.specs.declared.asking.Asking.{Asking};
ghost use Rattle.cx_eval_network.specs.Askings.{IsAsking};
ghost use Rattle.cx_eval_cycle.specs.Passes.{kind_at};
ghost use Rattle.cx_eval.specs.Looked.{own_cells, seen_look};

use cx_state::alike_laws::rows_stand;
use cx_state::width_laws::state_seen_has_width;

/// The values that the ports of a primitive of the asked instance are seen as are as wide as these.
pub fn seen_ports_are_wide()
    ensures { (a : Asking) (c : ℕ) (p : PrimitiveRow) → IsAsking a → kind_at (own_cells a) c ≡ Some (OfPrimitive p)
        → AreWide (ports_seen (seen_look a) c) (row_of p).ports }
{
    rows_stand();
    state_seen_has_width();
}
