//! The instances at the cells of an instance.

ghost use Rattle.std.specs.Prelude.{◌≡◌, ◌<◌, IfSome, length};
ghost use Rattle.cx_eval_network.specs.Asked as asked;

use cx_state::InstanceTable;

/// The instance at a cell of an instance, where its number is that of one.
pub fn child_in(table: &InstanceTable, instance: usize, cell: u32) -> Option<usize>
    requires within { instance < length table.now.rows.items }
    ensures value { result ≡ asked.child_in table.now.rows.items table.now.children.items instance cell }
    ensures within { IfSome result (λ child. child < length table.now.rows.items) }
{
    let child = table.child_of(instance, cell);
    if child < table.rows.len() {
        Some(child)
    } else {
        None
    }
}
