//! Texts that are assembled.

use crate::calls::call;
use class_model::Bytes;
use mt_edge::MemTree;
use sample_classes::A;
use std::alloc::Global;
use std::sync::Wait;
use std::test::Fail;
use std::thread::Threads;

// The text of the class `A`.
const TEXT: &str = "class A super java/lang/Object flags 33 major 52
method 9 f (I)Z stack 1 locals 1
line 3
iload_0
ifge L
iconst_1
ireturn
L:
frame same
iconst_0
ireturn
end
";

const WORDS: [&str; 4] = ["asm", "A.txt", "--out", "A.class"];

// A tree that holds a text at A.txt, some of whose calls fail.
fn held(alloc: Global, text: &[u8], fails: &[u64]) -> Result<MemTree, Fail> {
    let mut files = Vec::new(alloc);
    files.push((
        String::from_str(alloc, "A.txt")?,
        Bytes::from_slice(alloc, text)?,
    ))?;
    Ok(MemTree::new(alloc, files, fails.to_vec(alloc)?)?)
}

// Whether a call ends so, with something at A.class behind it or not.
fn ends(
    rt: &(impl Threads + Wait + Sync + AllocGlobal),
    words: &[&str],
    text: &[u8],
    fails: &[u64],
    status: i32,
    line: &str,
    stands: bool,
) -> Result<bool, Fail> {
    let alloc = rt.alloc();
    let mut tree = held(alloc, text, fails)?;
    let told = call(rt, words, &mut tree, &[])?;
    Ok(told.is(status, line, 0) && tree.held("A.class").is_some() == stands)
}

#[test]
fn a_text_is_assembled(rt: HostRuntime) -> Result<(), Fail> {
    let mut tree = held(rt.alloc(), TEXT.as_bytes(), &[])?;
    let told = call(&rt, &WORDS, &mut tree, &[])?;
    assert!(rt; told.is(0, "", 0));
    assert!(rt;
        tree.held("A.class")
            .is_some_and(|bytes| bytes == A.as_slice())
    );
    assert!(rt;
        tree.held("A.txt")
            .is_some_and(|bytes| bytes == TEXT.as_bytes())
    );
    Ok(())
}

#[test]
fn the_first_line_at_fault_is_told(rt: HostRuntime) -> Result<(), Fail> {
    let text = "class A super java/lang/Object flags 33 major 52
method 9 f (I)Z stack 1 locals 1
lien 3
iload_0
ireturn
end
";
    let line = "mutest: AsmRefused 3\n";
    assert!(rt; ends(&rt, &WORDS, text.as_bytes(), &[], 15, line, false)?);
    Ok(())
}

#[test]
fn the_option_may_stand_before_the_text(rt: HostRuntime) -> Result<(), Fail> {
    let words = ["asm", "--out", "A.class", "A.txt"];
    assert!(rt; ends(&rt, &words, TEXT.as_bytes(), &[], 0, "", true)?);
    Ok(())
}

#[test]
fn other_words_for_a_text_are_refused(rt: HostRuntime) -> Result<(), Fail> {
    let calls: [&[&str]; 7] = [
        &["asm", "A.txt"],
        &["asm", "--out", "A.class"],
        &["asm", "A.txt", "--out"],
        &["asm", "A.txt", "--out", "A.class", "--out", "A.class"],
        &["asm", "", "--out", "A.class"],
        &["asm", "A.txt", "-out", "A.class"],
        &["asm", "A.txt", "--out=A.class", "x"],
    ];
    for words in calls {
        let line = "mutest: Usage\n";
        assert!(rt; ends(&rt, words, TEXT.as_bytes(), &[], 2, line, false)?);
    }
    Ok(())
}

#[test]
fn what_else_may_fail_is_told(rt: HostRuntime) -> Result<(), Fail> {
    let text = TEXT.as_bytes();
    let words = ["asm", "B.txt", "--out", "A.class"];
    let line = "mutest: NotFound B.txt\n";
    assert!(rt; ends(&rt, &words, text, &[], 3, line, false)?);
    let line = "mutest: ReadFault\n";
    assert!(rt; ends(&rt, &WORDS, text, &[0], 10, line, false)?);
    let line = "mutest: WriteFault assembled\n";
    assert!(rt; ends(&rt, &WORDS, text, &[1], 11, line, false)?);
    let blanks = vec![in rt.alloc(); b'\n'; 4_194_305]?;
    let line = "mutest: TooMany class 4194305\n";
    assert!(rt; ends(&rt, &WORDS, blanks.as_slice(), &[], 12, line, false)?);
    Ok(())
}
