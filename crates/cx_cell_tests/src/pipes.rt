//! The multiplier and the divider, cycle by cycle, and the register.

// Computed by a program in Python on lists of bits (sums of shifted lists, long division), and compared there with its
// integers. A product comes in the third cycle with `go`, a quotient in the cycle whose number is the width; operands
// are looked at in the first.
pub const PIPES: &str = "
    std_mult_pipe 1
    1 step 1 1 1 0 0
    1 step 1 . . 0 0
    1 step 1 . . 1 1
    1 step 1 1 0 1 0
    1 step 1 . . 1 0
    1 step 1 . . 0 1

    std_mult_pipe 64
    1 step 1 0xffffffffffffffff 0xffffffffffffffff 0 0
    1 step 1 . . 0 0
    1 step 1 . . 1 1
    1 step 1 0x1c73c0e903858ee1 0x3a645d65893543de 1 0
    1 step 1 . . 1 0
    1 step 1 . . 0x4d7b95deffcbca1e 1

    std_mult_pipe 65
    1 step 1 0x1ffffffffffffffff 0x1ffffffffffffffff 0 0
    1 step 1 . . 0 0
    1 step 1 . . 1 1
    1 step 1 0x1143c4d4c5c4a6ad9 0x11efe5038682b7e59 1 0
    1 step 1 . . 1 0
    1 step 1 . . 0x19b4d6058d0e8f371 1

    std_mult_pipe 128
    1 step 1 0xffffffffffffffffffffffffffffffff 0xffffffffffffffffffffffffffffffff 0 0
    1 step 1 . . 0 0
    1 step 1 . . 1 1
    1 step 1 0xa56467f0655567feffb6e8edbe783d8e 0x946cfc8f14682d8af7b5e5d386651bbb 1 0
    1 step 1 . . 1 0
    1 step 1 . . 0xbe4d5a04e71ef79c803d10736d58f0ba 1

    std_div_pipe 1
    1 step 1 1 1 1 0 1
    1 step 1 0 1 0 0 1
    1 step 1 1 0 1 1 1
    1 step 1 0 0 1 0 1

    std_div_pipe 64
    1 step 1 0x2af5593434414dfa 0x1ec2d1716 0 0 0
    62 step 1 . . 0 0 0
    1 step 1 . . 0x16582658 0x7fc41a6a 1
    1 step 1 0xffffffffffffffff 1 0x16582658 0x7fc41a6a 0
    62 step 1 . . 0x16582658 0x7fc41a6a 0
    1 step 1 . . 0xffffffffffffffff 0 1
    1 step 1 0xdd7474d1354ca098 0 0xffffffffffffffff 0 0
    62 step 1 . . 0xffffffffffffffff 0 0
    1 step 1 . . 0xffffffffffffffff 0xdd7474d1354ca098 1

    std_div_pipe 65
    1 step 1 0x140627a0f0be1515 0x88cec070 0 0 0
    63 step 1 . . 0 0 0
    1 step 1 . . 0x2578450c 0x68aedfd5 1
    1 step 1 0x1ffffffffffffffff 1 0x2578450c 0x68aedfd5 0
    63 step 1 . . 0x2578450c 0x68aedfd5 0
    1 step 1 . . 0x1ffffffffffffffff 0 1
    1 step 1 0x15cbab960b90f3b23 0 0x1ffffffffffffffff 0 0
    63 step 1 . . 0x1ffffffffffffffff 0 0
    1 step 1 . . 0x1ffffffffffffffff 0x15cbab960b90f3b23 1

    std_div_pipe 128
    1 step 1 0x4ea1c8441a99f9a38a197629a81016df 0x153cafb393121ebac 0 0 0
    126 step 1 . . 0 0 0
    1 step 1 . . 0x3b3dc7a6b5601d8c 0x10d45aa70f550b8cf 1
    1 step 1 0xffffffffffffffffffffffffffffffff 1 0x3b3dc7a6b5601d8c 0x10d45aa70f550b8cf 0
    126 step 1 . . 0x3b3dc7a6b5601d8c 0x10d45aa70f550b8cf 0
    1 step 1 . . 0xffffffffffffffffffffffffffffffff 0 1
    1 step 1 0x12cf9731438a99d5ca7e0806c4e61fb9 0 0xffffffffffffffffffffffffffffffff 0 0
    126 step 1 . . 0xffffffffffffffffffffffffffffffff 0 0
    1 step 1 . . 0xffffffffffffffffffffffffffffffff 0x12cf9731438a99d5ca7e0806c4e61fb9 1
";

// Worked by hand: 65536 * 65537 is 65536 modulo two to the 32, in the third cycle with `go`; a cycle without `go`
// begins anew and keeps the output. 200 is 28 times 7 and 4; a divisor of 0 gives all ones and the dividend.
pub const WORKED: &str = "
    std_mult_pipe 32
    1 step 1 65536 65537 0 0
    1 step 1 . . 0 0
    1 step 1 . . 65536 1
    2 step 1 3 5 65536 0
    1 step 0 . . 65536 0
    2 step 1 3 5 65536 0
    1 step 1 . . 15 1
    1 idle 0 . . 15 0
    1 step 1 4 5 15 0
    1 reset 0 . . 0 0
    2 step 1 6 7 0 0
    1 edge 1 . . 42 1

    std_div_pipe 32
    31 step 1 200 7 0 0 0
    1 step 1 . . 28 4 1
    1 step 0 . . 28 4 0
    31 step 1 200 0 28 4 0
    1 step 1 . . 0xffffffff 200 1
    1 edge 0 . . 0xffffffff 200 0
    1 reset 1 9 9 0 0 0
";

// Worked by hand from the rows.
pub const REGISTER: &str = "
    std_reg 8
    1 look . . 0 0
    1 step 7 1 7 1
    1 step . 0 7 0
    1 edge 255 1 255 1
    1 idle 3 1 255 0
    1 reset 3 1 0 0
";
