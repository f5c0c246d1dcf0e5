//! Memories of one to four dimensions.

// Worked by hand from the rows. An address out of range in each dimension: a step is refused at the first such port and
// changes nothing; an edge writes no word, reads 0, and raises done.
pub const COMBINATIONAL: &str = "
    std_mem_d1 8 3 2
    1 look 2 . 0 0 0
    1 step 2 9 1 9 1
    1 look 3 . 0 . 1
    1 look . . . . 1
    1 idle 2 . . 9 0
    1 addr0 3 7 1 . 0
    1 edge 3 7 1 . 1
    1 look 0 . . 0 1
    1 look 1 . . 0 1
    1 look 2 . . 9 1
    1 step . . 0 . 0
    1 step 0 8 1 8 1
    1 reset 0 . . 8 0
    1 look 2 . . 9 0

    std_mem_d2 8 2 3 2 2
    1 step 1 2 9 1 9 1
    1 idle 1 2 . . 9 0
    1 addr0 2 0 7 1 . 0
    1 addr1 1 3 7 1 . 0
    1 addr0 2 3 7 1 . 0
    1 edge 1 3 7 1 . 1
    1 look 1 2 . . 9 1

    std_mem_d3 8 2 2 3 2 2 2
    1 step 1 1 2 9 1 9 1
    1 addr0 2 1 1 7 1 . 1
    1 addr1 1 2 1 7 1 . 1
    1 addr2 1 1 3 7 1 . 1
    1 edge 0 2 0 7 1 . 1
    1 look 0 1 2 . . 0 1
    1 look 1 0 0 . . 0 1

    std_mem_d4 8 2 2 2 3 2 2 2 2
    1 step 1 1 1 2 9 1 9 1
    1 addr0 2 1 1 1 7 1 . 1
    1 addr1 1 2 1 1 7 1 . 1
    1 addr2 1 1 2 1 7 1 . 1
    1 addr3 1 1 1 3 7 1 . 1
    1 edge 0 0 0 3 7 1 . 1
    1 look 0 0 1 0 . . 0 1
";

// Worked by hand from the rows. A write keeps the read data; `content_en` 0 with `write_en` 1 is idle.
pub const SEQUENTIAL: &str = "
    seq_mem_d1 32 3 2
    1 step 2 1 1 6 0 1
    1 step . 0 1 . 0 0
    1 step 2 1 0 . 6 1
    1 step . 0 0 . 6 0
    1 addr0 3 1 0 . 6 0
    1 addr0 3 1 1 7 6 0
    1 edge 3 1 1 7 6 1
    1 edge 3 0 1 7 6 0
    1 edge 3 1 0 . 0 1
    1 step 0 1 0 . 0 1
    1 step 1 1 0 . 0 1
    1 step 2 1 0 . 6 1
    1 idle 2 1 1 7 6 0
    1 reset 2 1 1 7 0 0
    1 step 2 1 0 . 6 1

    seq_mem_d2 8 2 3 2 2
    1 step 1 2 1 1 9 0 1
    1 step 1 2 1 0 . 9 1
    1 addr0 2 0 1 0 . 9 1
    1 addr1 1 3 1 1 7 9 1
    1 edge 1 3 1 0 . 0 1

    seq_mem_d3 8 2 2 3 2 2 2
    1 step 1 1 2 1 1 9 0 1
    1 step 1 1 2 1 0 . 9 1
    1 addr0 2 1 1 1 0 . 9 1
    1 addr1 1 2 1 1 0 . 9 1
    1 addr2 1 1 3 1 1 7 9 1
    1 edge 1 1 3 1 0 . 0 1

    seq_mem_d4 8 2 2 2 3 2 2 2 2
    1 step 1 1 1 2 1 1 9 0 1
    1 step 1 1 1 2 1 0 . 9 1
    1 addr0 2 1 1 1 1 0 . 9 1
    1 addr1 1 2 1 1 1 0 . 9 1
    1 addr2 1 1 2 1 1 0 . 9 1
    1 addr3 1 1 1 3 1 1 7 9 1
    1 edge 1 1 1 3 1 0 . 0 1
";

// 4194304 words of 128 bits.
pub const LARGE: &str = "
    comb_mem_d1 128 4194304 22
    1 step 4194303 0xffffffffffffffffffffffffffffffff 1 0xffffffffffffffffffffffffffffffff 1
    1 look 4194302 . . 0 1
";
