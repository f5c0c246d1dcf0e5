//! Generic code that uses the laws of any primitive, at three of them.

ghost use Rattle.std.specs.Prelude.{◌≡◌};
ghost use Rattle.cx_prim.specs.CellStates.{IsState};

use crate::conditions::stepped;
use crate::turns::entries;
use cx_cells::Primitive;
use cx_prim::Cycle;
use cx_stateful::{Layout, Register, SequentialMemory};
use std::test::Fail;

/// Two idle edges leave what one leaves.
fn settle<C: Cycle>(cell: &C, state: &mut C::State)
    requires { IsState (C.meaning cell.now).shape (C.shown state.old) }
    ensures value { C.shown state.new ≡ (C.meaning cell.now).idle (C.shown state.old) }
    ensures fits { IsState (C.meaning cell.now).shape (C.shown state.new) }
{
    cell.idle(state);
    cell.idle(state);
}

#[test]
fn settled_at_three_types(rt: HostRuntime) -> Result<(), Fail> {
    let register = Register { width: 8 };
    let mut value = register.start(rt.alloc())?;
    let write = entries(&rt, rt.alloc(), &register, "5 1 . .")?;
    assert_eq!(rt; stepped(&rt, &register, &mut value, &write), Ok(()));
    settle(&register, &mut value);
    assert_eq!(rt; (value.value, value.done), (5, false));

    let memory = SequentialMemory {
        layout: Layout {
            width: 8,
            dimensions: 1,
            sizes: [2, 0, 0, 0],
            address_widths: [1, 0, 0, 0],
            count: 2,
        },
    };
    let mut words = memory.start(rt.alloc())?;
    let write = entries(&rt, rt.alloc(), &memory, "1 1 1 9 . .")?;
    assert_eq!(rt; stepped(&rt, &memory, &mut words, &write), Ok(()));
    settle(&memory, &mut words);
    assert_eq!(rt; words.words.as_slice(), [0, 9].as_slice());
    assert_eq!(rt; words.done, false);

    let timer = Primitive::timer(3);
    let mut count = timer.start(rt.alloc())?;
    let go = entries(&rt, rt.alloc(), &timer, "1 . .")?;
    assert_eq!(rt; stepped(&rt, &timer, &mut count, &go), Ok(()));
    settle(&timer, &mut count);
    assert_eq!(rt; stepped(&rt, &timer, &mut count, &go), Ok(()));
    Ok(())
}
