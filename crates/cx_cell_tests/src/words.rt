//! The words that memories start with, and their order.

ghost use Rattle.std.specs.Prelude.{◌≡◌};
ghost use Rattle.cx_prim.specs.CellStates.{IsState, TakesWords};
ghost use Rattle.cx_prim.specs.Table.{row_of};
ghost use Rattle.cx_cell_tests.specs.Words.{TakesTwelve};

use crate::turns::{found, plays_from};
use cx_cells::{PrimState, Primitive};
use std::alloc::Global;
use std::process::Abort;

/// Starts a memory with the words 10 to 21, finds each of them again, and plays the turns of a text.
fn starts(rt: &impl Abort, alloc: Global, name: &str, numbers: &[u64], text: &str)
    requires { TakesTwelve name.now numbers.now }
{
    let cell = found(rt, name, numbers);
    let words = [10, 11, 12, 13, 14, 15, 16, 17, 18, 19, 20, 21];
    let Ok(mut state) = cell.start_with(alloc, &words) else {
        panic!(rt; "memory for {name}")
    };
    holds(rt, &cell, &state, &words);
    assert!(rt;
        plays_from(rt, alloc, &cell, &mut state, text).is_ok(),
        "{name}"
    );
}

/// Compares each word.
fn holds(rt: &impl Abort, cell: &Primitive, state: &PrimState, words: &[u64])
    requires state_fits { IsState (row_of cell.now).shape state.now }
    requires taken { TakesWords (row_of cell.now).shape words.now }
{
    for n in 0..words.len() {
        assert_eq!(rt; cell.word(state, n as u64), words[n], "word {n}");
    }
}

// Row-major by hand: the last address counts single words, each address before it as many words as stand behind it.
// With sizes 2, 3 and 2 the word at 1, 0 and 1 is number 1 * 6 + 0 * 2 + 1 = 7, which is 17.
#[test]
fn row_major(rt: HostRuntime) {
    starts(
        &rt,
        rt.alloc(),
        "comb_mem_d1",
        &[8, 12, 4],
        "1 look 7 . . 17 0",
    );
    starts(
        &rt,
        rt.alloc(),
        "comb_mem_d2",
        &[8, 3, 4, 2, 2],
        "1 look 1 3 . . 17 0\n1 look 2 0 . . 18 0",
    );
    starts(
        &rt,
        rt.alloc(),
        "comb_mem_d3",
        &[8, 2, 3, 2, 1, 2, 1],
        "1 look 1 0 1 . . 17 0\n1 look 0 2 0 . . 14 0",
    );
    starts(
        &rt,
        rt.alloc(),
        "comb_mem_d4",
        &[8, 2, 1, 3, 2, 1, 1, 2, 1],
        "1 look 1 0 0 1 . . 17 0\n1 look 0 0 2 1 . . 15 0",
    );
    starts(
        &rt,
        rt.alloc(),
        "seq_mem_d1",
        &[8, 12, 4],
        "1 step 7 1 0 . 17 1",
    );
    starts(
        &rt,
        rt.alloc(),
        "seq_mem_d2",
        &[8, 3, 4, 2, 2],
        "1 step 1 3 1 0 . 17 1\n1 step 2 0 1 0 . 18 1",
    );
    starts(
        &rt,
        rt.alloc(),
        "seq_mem_d3",
        &[8, 2, 3, 2, 1, 2, 1],
        "1 step 1 0 1 1 0 . 17 1\n1 step 0 2 0 1 0 . 14 1",
    );
    starts(
        &rt,
        rt.alloc(),
        "seq_mem_d4",
        &[8, 2, 1, 3, 2, 1, 1, 2, 1],
        "1 step 1 0 0 1 1 0 . 17 1\n1 step 0 0 2 1 1 0 . 15 1",
    );
}
