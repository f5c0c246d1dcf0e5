//! The turns of every table, from the start of each cell.

use crate::arithmetic::{OTHERS, TWO_INPUTS};
use crate::comparisons::COMPARISONS;
use crate::memories::{COMBINATIONAL, LARGE, SEQUENTIAL};
use crate::pipes::{PIPES, REGISTER, WORKED};
use crate::turns::{found, plays_all};
use cx_prim::Cycle;
use cx_text::Memory;

#[test]
fn turns(rt: HostRuntime) -> Result<(), Memory> {
    let tables = [
        TWO_INPUTS,
        OTHERS,
        COMPARISONS,
        PIPES,
        WORKED,
        REGISTER,
        COMBINATIONAL,
        SEQUENTIAL,
        LARGE,
    ];
    for table in tables {
        plays_all(&rt, rt.alloc(), table)?;
    }
    Ok(())
}

// Where the second allocation fails, as with `rt try --test --fail-alloc 2`, this one still passes.
#[test]
fn large_in_one_allocation(rt: HostRuntime) -> Result<(), Memory> {
    let cell = found(&rt, "comb_mem_d1", &[128, 4194304, 22]);
    let _state = cell.start(rt.alloc())?;
    Ok(())
}
