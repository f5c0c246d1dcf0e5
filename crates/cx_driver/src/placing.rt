//! Instances by the cells that lead to them.

ghost use Rattle.std.specs.Prelude.{◌≡◌};
ghost use Rattle.cx_driver.specs.Placing.{number_along};

use cx_state::InstanceTable;

/// The number of the instance to which cells lead from main on.
pub(crate) fn instance_along(table: &InstanceTable, path: &[u32]) -> usize
    ensures value { result ≡ number_along table.now.rows.items table.now.children.items 0 path.now }
{
    let mut instance = 0usize;
    for cell in path {
        instance = table.child_of(instance, *cell);
    }
    instance
}
