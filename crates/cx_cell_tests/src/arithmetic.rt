//! Sums, bits and shifts, and the primitives with one input or a choice.

// Computed by a program in Python on lists of bits (a carry from bit to bit, shifts of the list), and compared there
// with its integers modulo two to the width.
pub const TWO_INPUTS: &str = "
    std_add 1
    1 look 0 0 0
    1 look 0 1 1
    1 look 1 0 1
    1 look 1 1 0

    std_add 64
    1 look 0x158f11d329619b26 0x15a228c51d0cf343 0x2b313a98466e8e69
    1 look 0xffffffffffffffff 1 0
    1 look 0 0xffffffffffffffff 0xffffffffffffffff

    std_add 65
    1 look 0x14e5d85c11a2ba95e 0x1a8cb6dde685a5049 0xf728f39f8285f9a7
    1 look 0x1ffffffffffffffff 1 0
    1 look 0 0x1ffffffffffffffff 0x1ffffffffffffffff

    std_add 128
    1 look 0xe4aa34f9f1e0aa9330dbd75fc8ff42ef 0x4964d17e1af68eaccf4c6d0c7ab41ddd 0x2e0f06780cd739400028446c43b360cc
    1 look 0xffffffffffffffffffffffffffffffff 1 0
    1 look 0 0xffffffffffffffffffffffffffffffff 0xffffffffffffffffffffffffffffffff

    std_sub 1
    1 look 0 0 0
    1 look 0 1 1
    1 look 1 0 1
    1 look 1 1 0

    std_sub 64
    1 look 0x32f19e392eb7b2a0 0x3da560c96dce283c 0xf54c3d6fc0e98a64
    1 look 0xffffffffffffffff 1 0xfffffffffffffffe
    1 look 0 0xffffffffffffffff 1

    std_sub 65
    1 look 0x1eb8c61a7fd780c11 0x13dc4f04986678113 0xadc7715e77108afe
    1 look 0x1ffffffffffffffff 1 0x1fffffffffffffffe
    1 look 0 0x1ffffffffffffffff 1

    std_sub 128
    1 look 0xe0ca4cafd1c3fe2366a63dc90634e557 0x5553032028c26236161433c58ae8ca3c 0x8b77498fa9019bed50920a037b4c1b1b
    1 look 0xffffffffffffffffffffffffffffffff 1 0xfffffffffffffffffffffffffffffffe
    1 look 0 0xffffffffffffffffffffffffffffffff 1

    std_and 1
    1 look 0 0 0
    1 look 0 1 0
    1 look 1 0 0
    1 look 1 1 1

    std_and 64
    1 look 0x95f7cfd8c5dea7ac 0x9a12618af70adee3 0x90124188c50a86a0
    1 look 0xffffffffffffffff 1 1
    1 look 0 0xffffffffffffffff 0

    std_and 65
    1 look 0x1cc2241c6f6556e13 0x152d5a13ea8f0b172 0x140000106a0502012
    1 look 0x1ffffffffffffffff 1 1
    1 look 0 0x1ffffffffffffffff 0

    std_and 128
    1 look 0x81460aea9a5d21546d87c2f518e2b4e1 0x97b685215a39121b6cf855df04009885 0x810600201a1900106c8040d500009081
    1 look 0xffffffffffffffffffffffffffffffff 1 1
    1 look 0 0xffffffffffffffffffffffffffffffff 0

    std_or 1
    1 look 0 0 0
    1 look 0 1 1
    1 look 1 0 1
    1 look 1 1 1

    std_or 64
    1 look 0xabe12fde85278158 0xfb4eb8bdf92c2644 0xfbefbffffd2fa75c
    1 look 0xffffffffffffffff 1 0xffffffffffffffff
    1 look 0 0xffffffffffffffff 0xffffffffffffffff

    std_or 65
    1 look 0xf7457d830d202193 0x3fc07dff3f526e5e 0xffc57dff3f726fdf
    1 look 0x1ffffffffffffffff 1 0x1ffffffffffffffff
    1 look 0 0x1ffffffffffffffff 0x1ffffffffffffffff

    std_or 128
    1 look 0x5ab36abdaf5b731c095c0c358d22b4fd 0xf057dca04a9a0c873a6c6bf00578e792 0xfaf7febdefdb7f9f3b7c6ff58d7af7ff
    1 look 0xffffffffffffffffffffffffffffffff 1 0xffffffffffffffffffffffffffffffff
    1 look 0 0xffffffffffffffffffffffffffffffff 0xffffffffffffffffffffffffffffffff

    std_xor 1
    1 look 0 0 0
    1 look 0 1 1
    1 look 1 0 1
    1 look 1 1 0

    std_xor 64
    1 look 0x27e5b61694f38e87 0xdc6d44dd540bbaa8 0xfb88f2cbc0f8342f
    1 look 0xffffffffffffffff 1 0xfffffffffffffffe
    1 look 0 0xffffffffffffffff 0xffffffffffffffff

    std_xor 65
    1 look 0x1658fdfe1d0936d0c 0x8da81026f332c14b 0x1e827cfc723a1ac47
    1 look 0x1ffffffffffffffff 1 0x1fffffffffffffffe
    1 look 0 0x1ffffffffffffffff 0x1ffffffffffffffff

    std_xor 128
    1 look 0xdb29f0e01f06d95e47ae2fb795964bae 0x7adeff50e2d41af9b6055e103084d3d8 0xa1f70fb0fdd2c3a7f1ab71a7a5129876
    1 look 0xffffffffffffffffffffffffffffffff 1 0xfffffffffffffffffffffffffffffffe
    1 look 0 0xffffffffffffffffffffffffffffffff 0xffffffffffffffffffffffffffffffff

    std_lsh 1
    1 look 0 0 0
    1 look 0 1 0
    1 look 1 0 1
    1 look 1 1 0

    std_lsh 64
    1 look 0x33347dea495f14e5 63 0x8000000000000000
    1 look 0x6c27da4b0bdb952b 64 0
    1 look 0x339fc0bdc57b4db1 29 0xb8af69b620000000

    std_lsh 65
    1 look 0x152871ed9cead80b7 64 0x10000000000000000
    1 look 0xc8d0a88b63106d31 65 0
    1 look 0xdfb7e62364ed4305 19 0x1311b276a18280000
    1 look 0x1af0cbf89f347d505 0x10000000000000000 0

    std_lsh 128
    1 look 0xde5fe1e8df7dbaa1a12979f860ba6c1d 127 0x80000000000000000000000000000000
    1 look 0x533aeaba6fccf4af8dd01d74ab326664 128 0
    1 look 0xb3a662b8202d034d28a186cdd047722d 26 0xe080b40d34a2861b37411dc8b4000000
    1 look 0x4dfbab7f8d7fc39c71708397ac8fc39f 0x10000000000000000 0

    std_rsh 1
    1 look 0 0 0
    1 look 0 1 0
    1 look 1 0 1
    1 look 1 1 0

    std_rsh 64
    1 look 0x8d170d1156aca331 63 1
    1 look 0xb8845b8d672e7568 64 0
    1 look 0xec617584e28be7db 60 14

    std_rsh 65
    1 look 0xa36635efe2c176a5 64 0
    1 look 0x18afafc0b6f083d57 65 0
    1 look 0x161bfe5bdfe28734f 58 88
    1 look 0x1fbe321b45eac0bb3 0x10000000000000000 0

    std_rsh 128
    1 look 0xe359fe8baa267008901db52d4362621a 127 1
    1 look 0x9b79f6e6bfc1725da0566361fe0820fd 128 0
    1 look 0x7d54357605b89670fb62be3ef59a9c75 92 0x7d5435760
    1 look 0x220641d11f3812f009801a16e681c6ed 0x10000000000000000 0
";

// Bits from a program in Python, cut, filled up and turned as lists. A choice has a value where all three inputs have one.
pub const OTHERS: &str = "
    std_wire 1
    1 look 1 1
    1 look . .

    std_wire 64
    1 look 0x58120d4abfe76970 0x58120d4abfe76970
    1 look . .

    std_wire 65
    1 look 0x188f83b192c1f9cbf 0x188f83b192c1f9cbf
    1 look . .

    std_wire 128
    1 look 0xb772d55a9a1636081539f90c5c8b4cb5 0xb772d55a9a1636081539f90c5c8b4cb5
    1 look . .

    std_not 1
    1 look 1 0
    1 look 0 1

    std_not 64
    1 look 0xb9985b872002936d 0x4667a478dffd6c92
    1 look 0 0xffffffffffffffff

    std_not 65
    1 look 0x7ea5063901e44b62 0x1815af9c6fe1bb49d
    1 look 0 0x1ffffffffffffffff

    std_not 128
    1 look 0xbbd278975196b408076ab7d44e59939e 0x442d8768ae694bf7f895482bb1a66c61
    1 look 0 0xffffffffffffffffffffffffffffffff

    std_slice 1 1
    1 look 1 1

    std_slice 64 1
    1 look 0x999550f43735c053 1

    std_slice 65 64
    1 look 0x1801e2775369f1a04 0x801e2775369f1a04

    std_slice 128 65
    1 look 0xa353a46a45bb422f173e099a8bb2f050 0x1173e099a8bb2f050

    std_slice 128 128
    1 look 0xdd46a51d801cd458acc2c8f002d58cca 0xdd46a51d801cd458acc2c8f002d58cca

    std_pad 1 1
    1 look 1 1

    std_pad 1 64
    1 look 1 1

    std_pad 64 65
    1 look 0xa77d2b27fd557a5f 0xa77d2b27fd557a5f

    std_pad 65 128
    1 look 0x17b3696bc5ee219b8 0x17b3696bc5ee219b8

    std_pad 128 128
    1 look 0xc0d65744a6b8d9cdfd52e6ef62fe07f9 0xc0d65744a6b8d9cdfd52e6ef62fe07f9

    std_mux 1
    1 look 1 1 0 1
    1 look 0 1 0 0
    1 look 1 1 . .
    1 look . 1 0 .

    std_mux 64
    1 look 1 0x20e5bd6acf80a60 0x3fae06a782feccbd 0x20e5bd6acf80a60
    1 look 0 0x20e5bd6acf80a60 0x3fae06a782feccbd 0x3fae06a782feccbd
    1 look 1 0x20e5bd6acf80a60 . .
    1 look . 0x20e5bd6acf80a60 0x3fae06a782feccbd .

    std_mux 65
    1 look 1 0xfb3b6bb78ee4f9e8 0x1aa1bdcc1da16cf22 0xfb3b6bb78ee4f9e8
    1 look 0 0xfb3b6bb78ee4f9e8 0x1aa1bdcc1da16cf22 0x1aa1bdcc1da16cf22
    1 look 1 0xfb3b6bb78ee4f9e8 . .
    1 look . 0xfb3b6bb78ee4f9e8 0x1aa1bdcc1da16cf22 .

    std_mux 128
    1 look 1 0x5f1c917940873a24d99510cf1f2fb1af 0x58614360f25f6e2bcf0dbed7902b9c0b 0x5f1c917940873a24d99510cf1f2fb1af
    1 look 0 0x5f1c917940873a24d99510cf1f2fb1af 0x58614360f25f6e2bcf0dbed7902b9c0b 0x58614360f25f6e2bcf0dbed7902b9c0b
    1 look 1 0x5f1c917940873a24d99510cf1f2fb1af . .
    1 look . 0x5f1c917940873a24d99510cf1f2fb1af 0x58614360f25f6e2bcf0dbed7902b9c0b .

    std_const 1 1
    1 look 1

    std_const 64 18446744073709551615
    1 look 0xffffffffffffffff

    std_const 65 9223372036854775808
    1 look 0x8000000000000000

    std_const 128 7
    1 look 7
";
