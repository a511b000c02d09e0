//! Runs with other limits than the usual ones.

use crate::history::{AGAIN, FIRST, Told, assembled, run_with};
use sample_classes::{A, T};
use std::sync::Wait;
use std::test::Fail;
use std::thread::Threads;

// `d` calls itself as often as its argument says.
const D: &str = "class D super java/lang/Object flags 33 major 52
method 9 d (I)I stack 2 locals 1
line 4
iload_0
ifeq DONE
iload_0
iconst_1
isub
invokestatic D.d (I)I
ireturn
DONE:
frame same
iconst_0
ireturn
end
";

// `deep` takes 22 frames, `wide` more than 2,000 words.
const D_TEST: &str = "class DTest super java/lang/Object flags 33 major 52
method 1 <init> ()V stack 1 locals 1
aload_0
invokespecial java/lang/Object.<init> ()V
return
method 1 deep ()V stack 1 locals 1
note Lorg/junit/Test;
bipush 20
invokestatic D.d (I)I
pop
return
method 1 wide ()V stack 1 locals 1
note Lorg/junit/Test;
sipush 2000
newarray int
pop
return
end
";

#[test]
fn a_test_takes_no_more_than_it_may(rt: HostRuntime) -> Result<(), Fail> {
    let class = assembled(&rt, D)?;
    let test = assembled(&rt, D_TEST)?;
    let files = [
        ("c/D.class", class.as_slice()),
        ("t/DTest.class", test.as_slice()),
    ];
    let calls: [(&[&str], &str); 3] = [
        (&["--depth", "21"], "mutest: NotGreen DTest.deep Failed\n"),
        (
            &["--heap", "1024"],
            "mutest: NotGreen DTest.wide MemoryOut\n",
        ),
        (
            &["--heap=1024", "--depth=16"],
            "mutest: NotGreen DTest.deep Failed\nmutest: NotGreen DTest.wide MemoryOut\n",
        ),
    ];
    for (options, lines) in calls {
        let told = run_with(&rt, &files, options, &[])?;
        assert!(rt; told.ended.is(8, lines, told.ended.steps));
    }
    let told = run_with(&rt, &files, &["--heap", "2048", "--depth", "22"], &[])?;
    assert_eq!(rt; told.ended.status, 0);
    Ok(())
}

// A run with the history of another one, and fewer words than usual.
fn again(rt: &(impl Threads + Wait + Sync + AllocGlobal), history: &[u8]) -> Result<Told, Fail> {
    let files = [
        ("c/A.class", A.as_slice()),
        ("t/T.class", T.as_slice()),
        ("old.mth", history),
    ];
    run_with(rt, &files, &["--history", "old.mth", "--heap", "1024"], &[])
}

#[test]
fn records_are_of_runs_with_their_own_limits(rt: HostRuntime) -> Result<(), Fail> {
    let files = [("c/A.class", A.as_slice()), ("t/T.class", T.as_slice())];
    let usual = run_with(&rt, &files, &[], &[])?;
    let other = again(&rt, usual.history.as_slice())?;
    assert!(rt; other.ended.is(0, FIRST, 188));
    assert_eq!(rt; other.report.as_slice(), usual.report.as_slice());
    let same = again(&rt, other.history.as_slice())?;
    assert!(rt; same.ended.is(0, AGAIN, 0));
    Ok(())
}

#[test]
fn a_test_takes_no_more_steps_than_it_may(rt: HostRuntime) -> Result<(), Fail> {
    let files = [("c/A.class", A.as_slice()), ("t/T.class", T.as_slice())];
    let few = run_with(&rt, &files, &["--steps", "14"], &[])?;
    let lines = "mutest: NotGreen T.neg TimedOut\nmutest: NotGreen T.zero TimedOut\n";
    assert!(rt; few.ended.is(8, lines, 28));
    let enough = run_with(&rt, &files, &["--steps=15"], &[])?;
    assert!(rt; enough.ended.is(0, FIRST, 188));
    Ok(())
}
