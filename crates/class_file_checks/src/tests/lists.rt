//! Lists, shared bytes and edits.

use class_model::{Arg, Edit, Insn, NewInsn, Seq, SharedBytes, read_text};
use std::test::Fail;

#[test]
fn lists_grow_and_are_ordered_by_their_items(rt: HostRuntime) -> Result<(), Fail> {
    let mut bytes = Seq::new(rt.alloc());
    assert!(rt; bytes.is_empty());
    bytes.push(1)?;
    bytes.extend_from_slice(&[2, 3])?;
    assert!(rt; bytes.len() == 3 && bytes.get(2) == Some(&3) && bytes.get(3).is_none());
    let high = Seq::from_slice(rt.alloc(), &[1, 3])?;
    assert!(rt; bytes < high);
    let shared = SharedBytes::new(rt.alloc(), bytes)?;
    assert!(rt; shared.copy()?.as_slice() == [1, 2, 3].as_slice());
    Ok(())
}

#[test]
fn an_edit_is_copied(rt: HostRuntime) -> Result<(), Fail> {
    let class = read_text(rt.alloc(), "java/lang/Boolean".as_bytes())?;
    let method = read_text(rt.alloc(), "valueOf".as_bytes())?;
    let desc = read_text(rt.alloc(), "(Z)Ljava/lang/Boolean;".as_bytes())?;
    let increment = Insn {
        op: 0x84,
        wide: true,
        arg: Arg::Inc(300, -1),
    };
    let edit = Edit {
        method: 1,
        at: 3,
        with: Seq::from_vec(vec![in rt.alloc();
            NewInsn::Plain(increment),
            NewInsn::Inc(300, 40_000),
            NewInsn::EmptyText,
            NewInsn::Call(class, method, desc),
        ]?),
        more_stack: 1,
    };
    let copy = edit.copy()?;
    assert!(rt; copy.method == 1 && copy.at == 3 && copy.with.len() == 4 && copy.more_stack == 1);
    Ok(())
}
