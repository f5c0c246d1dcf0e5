//! Comparisons, at the ends of the ranges of signed numbers too.

// Computed by a program in Python: lists of bits from the highest bit down, and compared there with its integers,
// which `int.from_bytes` makes signed. The values are the least and the greatest signed number, -1 and their like.
pub const COMPARISONS: &str = "
    std_lt 1
    1 look 0 0 0
    1 look 0 1 1
    1 look 1 0 0
    1 look 1 1 0

    std_lt 64
    1 look 0x8000000000000000 0x7fffffffffffffff 0
    1 look 0x7fffffffffffffff 0x8000000000000000 1
    1 look 0x8000000000000000 0x8000000000000000 0
    1 look 0xffffffffffffffff 0 0
    1 look 0x7ffffffffffffffe 0x7fffffffffffffff 1
    1 look 0x8000000000000001 0x8000000000000000 0

    std_lt 65
    1 look 0x10000000000000000 0xffffffffffffffff 0
    1 look 0xffffffffffffffff 0x10000000000000000 1
    1 look 0x10000000000000000 0x10000000000000000 0
    1 look 0x1ffffffffffffffff 0 0
    1 look 0xfffffffffffffffe 0xffffffffffffffff 1
    1 look 0x10000000000000001 0x10000000000000000 0

    std_lt 128
    1 look 0x80000000000000000000000000000000 0x7fffffffffffffffffffffffffffffff 0
    1 look 0x7fffffffffffffffffffffffffffffff 0x80000000000000000000000000000000 1
    1 look 0x80000000000000000000000000000000 0x80000000000000000000000000000000 0
    1 look 0xffffffffffffffffffffffffffffffff 0 0
    1 look 0x7ffffffffffffffffffffffffffffffe 0x7fffffffffffffffffffffffffffffff 1
    1 look 0x80000000000000000000000000000001 0x80000000000000000000000000000000 0

    std_gt 1
    1 look 0 0 0
    1 look 0 1 0
    1 look 1 0 1
    1 look 1 1 0

    std_gt 64
    1 look 0x8000000000000000 0x7fffffffffffffff 1
    1 look 0x7fffffffffffffff 0x8000000000000000 0
    1 look 0x8000000000000000 0x8000000000000000 0
    1 look 0xffffffffffffffff 0 1
    1 look 0x7ffffffffffffffe 0x7fffffffffffffff 0
    1 look 0x8000000000000001 0x8000000000000000 1

    std_gt 65
    1 look 0x10000000000000000 0xffffffffffffffff 1
    1 look 0xffffffffffffffff 0x10000000000000000 0
    1 look 0x10000000000000000 0x10000000000000000 0
    1 look 0x1ffffffffffffffff 0 1
    1 look 0xfffffffffffffffe 0xffffffffffffffff 0
    1 look 0x10000000000000001 0x10000000000000000 1

    std_gt 128
    1 look 0x80000000000000000000000000000000 0x7fffffffffffffffffffffffffffffff 1
    1 look 0x7fffffffffffffffffffffffffffffff 0x80000000000000000000000000000000 0
    1 look 0x80000000000000000000000000000000 0x80000000000000000000000000000000 0
    1 look 0xffffffffffffffffffffffffffffffff 0 1
    1 look 0x7ffffffffffffffffffffffffffffffe 0x7fffffffffffffffffffffffffffffff 0
    1 look 0x80000000000000000000000000000001 0x80000000000000000000000000000000 1

    std_eq 1
    1 look 0 0 1
    1 look 0 1 0
    1 look 1 0 0
    1 look 1 1 1

    std_eq 64
    1 look 0x8000000000000000 0x7fffffffffffffff 0
    1 look 0x7fffffffffffffff 0x8000000000000000 0
    1 look 0x8000000000000000 0x8000000000000000 1
    1 look 0xffffffffffffffff 0 0
    1 look 0x7ffffffffffffffe 0x7fffffffffffffff 0
    1 look 0x8000000000000001 0x8000000000000000 0

    std_eq 65
    1 look 0x10000000000000000 0xffffffffffffffff 0
    1 look 0xffffffffffffffff 0x10000000000000000 0
    1 look 0x10000000000000000 0x10000000000000000 1
    1 look 0x1ffffffffffffffff 0 0
    1 look 0xfffffffffffffffe 0xffffffffffffffff 0
    1 look 0x10000000000000001 0x10000000000000000 0

    std_eq 128
    1 look 0x80000000000000000000000000000000 0x7fffffffffffffffffffffffffffffff 0
    1 look 0x7fffffffffffffffffffffffffffffff 0x80000000000000000000000000000000 0
    1 look 0x80000000000000000000000000000000 0x80000000000000000000000000000000 1
    1 look 0xffffffffffffffffffffffffffffffff 0 0
    1 look 0x7ffffffffffffffffffffffffffffffe 0x7fffffffffffffffffffffffffffffff 0
    1 look 0x80000000000000000000000000000001 0x80000000000000000000000000000000 0

    std_neq 1
    1 look 0 0 0
    1 look 0 1 1
    1 look 1 0 1
    1 look 1 1 0

    std_neq 64
    1 look 0x8000000000000000 0x7fffffffffffffff 1
    1 look 0x7fffffffffffffff 0x8000000000000000 1
    1 look 0x8000000000000000 0x8000000000000000 0
    1 look 0xffffffffffffffff 0 1
    1 look 0x7ffffffffffffffe 0x7fffffffffffffff 1
    1 look 0x8000000000000001 0x8000000000000000 1

    std_neq 65
    1 look 0x10000000000000000 0xffffffffffffffff 1
    1 look 0xffffffffffffffff 0x10000000000000000 1
    1 look 0x10000000000000000 0x10000000000000000 0
    1 look 0x1ffffffffffffffff 0 1
    1 look 0xfffffffffffffffe 0xffffffffffffffff 1
    1 look 0x10000000000000001 0x10000000000000000 1

    std_neq 128
    1 look 0x80000000000000000000000000000000 0x7fffffffffffffffffffffffffffffff 1
    1 look 0x7fffffffffffffffffffffffffffffff 0x80000000000000000000000000000000 1
    1 look 0x80000000000000000000000000000000 0x80000000000000000000000000000000 0
    1 look 0xffffffffffffffffffffffffffffffff 0 1
    1 look 0x7ffffffffffffffffffffffffffffffe 0x7fffffffffffffffffffffffffffffff 1
    1 look 0x80000000000000000000000000000001 0x80000000000000000000000000000000 1

    std_le 1
    1 look 0 0 1
    1 look 0 1 1
    1 look 1 0 0
    1 look 1 1 1

    std_le 64
    1 look 0x8000000000000000 0x7fffffffffffffff 0
    1 look 0x7fffffffffffffff 0x8000000000000000 1
    1 look 0x8000000000000000 0x8000000000000000 1
    1 look 0xffffffffffffffff 0 0
    1 look 0x7ffffffffffffffe 0x7fffffffffffffff 1
    1 look 0x8000000000000001 0x8000000000000000 0

    std_le 65
    1 look 0x10000000000000000 0xffffffffffffffff 0
    1 look 0xffffffffffffffff 0x10000000000000000 1
    1 look 0x10000000000000000 0x10000000000000000 1
    1 look 0x1ffffffffffffffff 0 0
    1 look 0xfffffffffffffffe 0xffffffffffffffff 1
    1 look 0x10000000000000001 0x10000000000000000 0

    std_le 128
    1 look 0x80000000000000000000000000000000 0x7fffffffffffffffffffffffffffffff 0
    1 look 0x7fffffffffffffffffffffffffffffff 0x80000000000000000000000000000000 1
    1 look 0x80000000000000000000000000000000 0x80000000000000000000000000000000 1
    1 look 0xffffffffffffffffffffffffffffffff 0 0
    1 look 0x7ffffffffffffffffffffffffffffffe 0x7fffffffffffffffffffffffffffffff 1
    1 look 0x80000000000000000000000000000001 0x80000000000000000000000000000000 0

    std_ge 1
    1 look 0 0 1
    1 look 0 1 0
    1 look 1 0 1
    1 look 1 1 1

    std_ge 64
    1 look 0x8000000000000000 0x7fffffffffffffff 1
    1 look 0x7fffffffffffffff 0x8000000000000000 0
    1 look 0x8000000000000000 0x8000000000000000 1
    1 look 0xffffffffffffffff 0 1
    1 look 0x7ffffffffffffffe 0x7fffffffffffffff 0
    1 look 0x8000000000000001 0x8000000000000000 1

    std_ge 65
    1 look 0x10000000000000000 0xffffffffffffffff 1
    1 look 0xffffffffffffffff 0x10000000000000000 0
    1 look 0x10000000000000000 0x10000000000000000 1
    1 look 0x1ffffffffffffffff 0 1
    1 look 0xfffffffffffffffe 0xffffffffffffffff 0
    1 look 0x10000000000000001 0x10000000000000000 1

    std_ge 128
    1 look 0x80000000000000000000000000000000 0x7fffffffffffffffffffffffffffffff 1
    1 look 0x7fffffffffffffffffffffffffffffff 0x80000000000000000000000000000000 0
    1 look 0x80000000000000000000000000000000 0x80000000000000000000000000000000 1
    1 look 0xffffffffffffffffffffffffffffffff 0 1
    1 look 0x7ffffffffffffffffffffffffffffffe 0x7fffffffffffffffffffffffffffffff 0
    1 look 0x80000000000000000000000000000001 0x80000000000000000000000000000000 1

    std_slt 1
    1 look 0 0 0
    1 look 0 1 0
    1 look 1 0 1
    1 look 1 1 0

    std_slt 64
    1 look 0x8000000000000000 0x7fffffffffffffff 1
    1 look 0x7fffffffffffffff 0x8000000000000000 0
    1 look 0x8000000000000000 0x8000000000000000 0
    1 look 0xffffffffffffffff 0 1
    1 look 0x7ffffffffffffffe 0x7fffffffffffffff 1
    1 look 0x8000000000000001 0x8000000000000000 0

    std_slt 65
    1 look 0x10000000000000000 0xffffffffffffffff 1
    1 look 0xffffffffffffffff 0x10000000000000000 0
    1 look 0x10000000000000000 0x10000000000000000 0
    1 look 0x1ffffffffffffffff 0 1
    1 look 0xfffffffffffffffe 0xffffffffffffffff 1
    1 look 0x10000000000000001 0x10000000000000000 0

    std_slt 128
    1 look 0x80000000000000000000000000000000 0x7fffffffffffffffffffffffffffffff 1
    1 look 0x7fffffffffffffffffffffffffffffff 0x80000000000000000000000000000000 0
    1 look 0x80000000000000000000000000000000 0x80000000000000000000000000000000 0
    1 look 0xffffffffffffffffffffffffffffffff 0 1
    1 look 0x7ffffffffffffffffffffffffffffffe 0x7fffffffffffffffffffffffffffffff 1
    1 look 0x80000000000000000000000000000001 0x80000000000000000000000000000000 0

    std_sgt 1
    1 look 0 0 0
    1 look 0 1 1
    1 look 1 0 0
    1 look 1 1 0

    std_sgt 64
    1 look 0x8000000000000000 0x7fffffffffffffff 0
    1 look 0x7fffffffffffffff 0x8000000000000000 1
    1 look 0x8000000000000000 0x8000000000000000 0
    1 look 0xffffffffffffffff 0 0
    1 look 0x7ffffffffffffffe 0x7fffffffffffffff 0
    1 look 0x8000000000000001 0x8000000000000000 1

    std_sgt 65
    1 look 0x10000000000000000 0xffffffffffffffff 0
    1 look 0xffffffffffffffff 0x10000000000000000 1
    1 look 0x10000000000000000 0x10000000000000000 0
    1 look 0x1ffffffffffffffff 0 0
    1 look 0xfffffffffffffffe 0xffffffffffffffff 0
    1 look 0x10000000000000001 0x10000000000000000 1

    std_sgt 128
    1 look 0x80000000000000000000000000000000 0x7fffffffffffffffffffffffffffffff 0
    1 look 0x7fffffffffffffffffffffffffffffff 0x80000000000000000000000000000000 1
    1 look 0x80000000000000000000000000000000 0x80000000000000000000000000000000 0
    1 look 0xffffffffffffffffffffffffffffffff 0 0
    1 look 0x7ffffffffffffffffffffffffffffffe 0x7fffffffffffffffffffffffffffffff 0
    1 look 0x80000000000000000000000000000001 0x80000000000000000000000000000000 1

    std_seq 1
    1 look 0 0 1
    1 look 0 1 0
    1 look 1 0 0
    1 look 1 1 1

    std_seq 64
    1 look 0x8000000000000000 0x7fffffffffffffff 0
    1 look 0x7fffffffffffffff 0x8000000000000000 0
    1 look 0x8000000000000000 0x8000000000000000 1
    1 look 0xffffffffffffffff 0 0
    1 look 0x7ffffffffffffffe 0x7fffffffffffffff 0
    1 look 0x8000000000000001 0x8000000000000000 0

    std_seq 65
    1 look 0x10000000000000000 0xffffffffffffffff 0
    1 look 0xffffffffffffffff 0x10000000000000000 0
    1 look 0x10000000000000000 0x10000000000000000 1
    1 look 0x1ffffffffffffffff 0 0
    1 look 0xfffffffffffffffe 0xffffffffffffffff 0
    1 look 0x10000000000000001 0x10000000000000000 0

    std_seq 128
    1 look 0x80000000000000000000000000000000 0x7fffffffffffffffffffffffffffffff 0
    1 look 0x7fffffffffffffffffffffffffffffff 0x80000000000000000000000000000000 0
    1 look 0x80000000000000000000000000000000 0x80000000000000000000000000000000 1
    1 look 0xffffffffffffffffffffffffffffffff 0 0
    1 look 0x7ffffffffffffffffffffffffffffffe 0x7fffffffffffffffffffffffffffffff 0
    1 look 0x80000000000000000000000000000001 0x80000000000000000000000000000000 0

    std_sneq 1
    1 look 0 0 0
    1 look 0 1 1
    1 look 1 0 1
    1 look 1 1 0

    std_sneq 64
    1 look 0x8000000000000000 0x7fffffffffffffff 1
    1 look 0x7fffffffffffffff 0x8000000000000000 1
    1 look 0x8000000000000000 0x8000000000000000 0
    1 look 0xffffffffffffffff 0 1
    1 look 0x7ffffffffffffffe 0x7fffffffffffffff 1
    1 look 0x8000000000000001 0x8000000000000000 1

    std_sneq 65
    1 look 0x10000000000000000 0xffffffffffffffff 1
    1 look 0xffffffffffffffff 0x10000000000000000 1
    1 look 0x10000000000000000 0x10000000000000000 0
    1 look 0x1ffffffffffffffff 0 1
    1 look 0xfffffffffffffffe 0xffffffffffffffff 1
    1 look 0x10000000000000001 0x10000000000000000 1

    std_sneq 128
    1 look 0x80000000000000000000000000000000 0x7fffffffffffffffffffffffffffffff 1
    1 look 0x7fffffffffffffffffffffffffffffff 0x80000000000000000000000000000000 1
    1 look 0x80000000000000000000000000000000 0x80000000000000000000000000000000 0
    1 look 0xffffffffffffffffffffffffffffffff 0 1
    1 look 0x7ffffffffffffffffffffffffffffffe 0x7fffffffffffffffffffffffffffffff 1
    1 look 0x80000000000000000000000000000001 0x80000000000000000000000000000000 1

    std_sle 1
    1 look 0 0 1
    1 look 0 1 0
    1 look 1 0 1
    1 look 1 1 1

    std_sle 64
    1 look 0x8000000000000000 0x7fffffffffffffff 1
    1 look 0x7fffffffffffffff 0x8000000000000000 0
    1 look 0x8000000000000000 0x8000000000000000 1
    1 look 0xffffffffffffffff 0 1
    1 look 0x7ffffffffffffffe 0x7fffffffffffffff 1
    1 look 0x8000000000000001 0x8000000000000000 0

    std_sle 65
    1 look 0x10000000000000000 0xffffffffffffffff 1
    1 look 0xffffffffffffffff 0x10000000000000000 0
    1 look 0x10000000000000000 0x10000000000000000 1
    1 look 0x1ffffffffffffffff 0 1
    1 look 0xfffffffffffffffe 0xffffffffffffffff 1
    1 look 0x10000000000000001 0x10000000000000000 0

    std_sle 128
    1 look 0x80000000000000000000000000000000 0x7fffffffffffffffffffffffffffffff 1
    1 look 0x7fffffffffffffffffffffffffffffff 0x80000000000000000000000000000000 0
    1 look 0x80000000000000000000000000000000 0x80000000000000000000000000000000 1
    1 look 0xffffffffffffffffffffffffffffffff 0 1
    1 look 0x7ffffffffffffffffffffffffffffffe 0x7fffffffffffffffffffffffffffffff 1
    1 look 0x80000000000000000000000000000001 0x80000000000000000000000000000000 0

    std_sge 1
    1 look 0 0 1
    1 look 0 1 1
    1 look 1 0 0
    1 look 1 1 1

    std_sge 64
    1 look 0x8000000000000000 0x7fffffffffffffff 0
    1 look 0x7fffffffffffffff 0x8000000000000000 1
    1 look 0x8000000000000000 0x8000000000000000 1
    1 look 0xffffffffffffffff 0 0
    1 look 0x7ffffffffffffffe 0x7fffffffffffffff 0
    1 look 0x8000000000000001 0x8000000000000000 1

    std_sge 65
    1 look 0x10000000000000000 0xffffffffffffffff 0
    1 look 0xffffffffffffffff 0x10000000000000000 1
    1 look 0x10000000000000000 0x10000000000000000 1
    1 look 0x1ffffffffffffffff 0 0
    1 look 0xfffffffffffffffe 0xffffffffffffffff 0
    1 look 0x10000000000000001 0x10000000000000000 1

    std_sge 128
    1 look 0x80000000000000000000000000000000 0x7fffffffffffffffffffffffffffffff 0
    1 look 0x7fffffffffffffffffffffffffffffff 0x80000000000000000000000000000000 1
    1 look 0x80000000000000000000000000000000 0x80000000000000000000000000000000 1
    1 look 0xffffffffffffffffffffffffffffffff 0 0
    1 look 0x7ffffffffffffffffffffffffffffffe 0x7fffffffffffffffffffffffffffffff 0
    1 look 0x80000000000000000000000000000001 0x80000000000000000000000000000000 1
";
