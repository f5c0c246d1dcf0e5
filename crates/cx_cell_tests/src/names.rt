//! Names and numbers, and the timer, which designs cannot name.

use crate::turns::{found, plays_from};
use cx_cells::{PrimFault, Primitive};
use cx_prim::Cycle;
use std::test::Fail;

// Worked by hand from the rows: widths are 1 to 128, a value fits its width, a slice is no wider than its input and a
// pad no narrower, sizes are at least 1 and their product is below 4294967296, address widths are 1 to 64.
#[test]
fn refused_numbers(rt: HostRuntime) -> Result<(), Fail> {
    let cases: [(&str, &[u64], Option<PrimFault>); 20] = [
        ("std_cat", &[1], Some(PrimFault::Unknown)),
        ("cx_timer", &[1], Some(PrimFault::Unknown)),
        ("std_ad", &[1], Some(PrimFault::Unknown)),
        ("", &[], Some(PrimFault::Unknown)),
        ("std_add", &[], Some(PrimFault::BadParameters)),
        ("std_add", &[0], Some(PrimFault::BadParameters)),
        ("std_add", &[129], Some(PrimFault::BadParameters)),
        ("std_add", &[8, 8], Some(PrimFault::BadParameters)),
        ("std_const", &[64, 0xffff_ffff_ffff_ffff], None),
        ("std_const", &[3, 8], Some(PrimFault::BadParameters)),
        ("std_slice", &[8, 9], Some(PrimFault::BadParameters)),
        ("std_pad", &[9, 8], Some(PrimFault::BadParameters)),
        ("std_mem_d1", &[8, 0, 1], Some(PrimFault::BadParameters)),
        ("std_mem_d1", &[8, 1, 0], Some(PrimFault::BadParameters)),
        ("std_mem_d1", &[8, 1, 65], Some(PrimFault::BadParameters)),
        ("std_mem_d1", &[8, 4294967295, 64], None),
        (
            "comb_mem_d2",
            &[8, 65536, 65536, 16, 16],
            Some(PrimFault::BadParameters),
        ),
        ("comb_mem_d2", &[8, 65536, 65535, 16, 16], None),
        ("seq_mem_d2", &[8, 2, 2, 1], Some(PrimFault::BadParameters)),
        (
            "seq_mem_d3",
            &[8, 2, 2, 0, 1, 1, 1],
            Some(PrimFault::BadParameters),
        ),
    ];
    for (name, numbers, want) in cases.iter() {
        assert_eq!(rt;
            Primitive::find(name.as_bytes(), numbers).err(),
            *want,
            "{name} {numbers:?}"
        );
    }
    let copy = found(&rt, "std_slice", &[8, 3]).copied();
    assert_eq!(rt; copy.name(), "std_slice");
    assert_eq!(rt; copy.numbers(), [8, 3].as_slice());
    Ok(())
}

// Worked by hand from the row: the count of cycles with `go`, and done in place of the third.
#[test]
fn timer(rt: HostRuntime) -> Result<(), Fail> {
    let cell = Primitive::timer(3);
    assert_eq!(rt; cell.name(), "cx_timer");
    assert_eq!(rt; cell.numbers(), [3].as_slice());
    let mut state = cell.start(rt.alloc())?;
    let turns = "1 step 1 1 0
        1 step 1 2 0
        1 step 1 0 1
        1 step 1 1 0
        1 step 0 0 0
        1 edge 1 1 0
        1 idle 1 0 0
        1 step 1 1 0
        1 reset 1 0 0";
    plays_from(&rt, rt.alloc(), &cell, &mut state, turns)?;
    Ok(())
}
