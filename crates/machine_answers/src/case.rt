//! A test and its limits, of a line.

ghost use Rattle.std.specs.Prelude.{◌<◌, ◌^◌, IfOk};

use class_model::{Seq, read_text};
use class_table::{Call, CallKind, Test};
use machine_rules::Limits;
use std::alloc::Global;

/// A test, its limits, the steps that it may take at most, and whether its record is to tell of it.
#[derive(Drop)]
pub struct Case {
    pub test: Test,
    pub limits: Limits,
    pub steps: u64,
    pub by_record: bool,
}

// The kind of a call, by its name.
fn kind_of(name: &str) -> anyhow::Result<CallKind> {
    match name {
        "ClassWide" => Ok(CallKind::ClassWide),
        "Make" => Ok(CallKind::Make),
        "Around" => Ok(CallKind::Around),
        "TestMethod" => Ok(CallKind::TestMethod),
        _ => anyhow::bail!("a call of no kind"),
    }
}

// The call that a word names: its kind, a colon, its class, a dot and its method.
fn call_of(alloc: Global, word: &str) -> anyhow::Result<Call> {
    let Some((kind, member)) = word.split_once(':') else {
        anyhow::bail!("a call without a kind");
    };
    let Some((class, method)) = member.split_once('.') else {
        anyhow::bail!("a call without a method");
    };
    Ok(Call {
        class: read_text(alloc, class.as_bytes())?,
        method: read_text(alloc, method.as_bytes())?,
        kind: kind_of(kind)?,
    })
}

// The script of these words.
fn script_of(alloc: Global, words: &str) -> anyhow::Result<Seq<Call>> {
    let mut script = Seq::new(alloc);
    for word in words.split(' ') {
        script.push(call_of(alloc, word)?)?;
    }
    Ok(script)
}

// The script of a line without one: an instance is made, and the method is called.
fn plain_script(alloc: Global, class: &str, method: &str) -> anyhow::Result<Seq<Call>> {
    let words = format!(in alloc; "Make:{class}.<init> TestMethod:{class}.{method}")?;
    script_of(alloc, words.as_str())
}

// The test of a method, with the words of its script, if any.
fn test_of(
    alloc: Global,
    class: &str,
    method: &str,
    expected: Option<&str>,
    script: Option<&str>,
) -> anyhow::Result<Test> {
    let script = match script {
        Some(words) => script_of(alloc, words)?,
        None => plain_script(alloc, class, method)?,
    };
    let expected = match expected {
        Some(word) => Some(read_text(alloc, word.as_bytes())?),
        None => None,
    };
    Ok(Test {
        class: read_text(alloc, class.as_bytes())?,
        method: read_text(alloc, method.as_bytes())?,
        script,
        expected,
    })
}

// The limits of these words: words of the heap, fewer than 2^31, and frames.
fn limits_of(heap: &str, depth: &str) -> anyhow::Result<Limits>
    ensures { IfOk result (λ limits. limits.heap < 2 ^ 31) }
{
    let heap = heap.parse::<u32>()?;
    if heap >= 2147483648 {
        anyhow::bail!("too much heap");
    }
    let depth = depth.parse::<u32>()?;
    Ok(Limits { heap, depth })
}

// Whether a line begins with `record`, and what stands behind that.
fn kept_of(line: &str) -> (bool, &str) {
    match line.strip_prefix("record ") {
        Some(words) => (true, words),
        None => (false, line),
    }
}

// The words of a line, and those of its script, if it has one.
fn parts_of(line: &str) -> (&str, Option<&str>) {
    match line.split_once(" by ") {
        Some((test, script)) => (test, Some(script)),
        None => (line, None),
    }
}

/// The test of a line: `record`, if its record is to tell of it, its class, its method, its steps at
/// most, its words of the heap, its frames, the class of what is to leave it, if anything is, and
/// behind `by` the calls of its script, if they aren't the usual two.
pub fn case_of(alloc: Global, line: &str) -> anyhow::Result<Case>
    ensures { IfOk result (λ case. case.limits.heap < 2 ^ 31) }
{
    let (by_record, line) = kept_of(line);
    let (line, script) = parts_of(line);
    let mut words = line.split(' ');
    let (Some(class), Some(method), Some(steps), Some(heap), Some(depth)) = (
        words.next(),
        words.next(),
        words.next(),
        words.next(),
        words.next(),
    ) else {
        anyhow::bail!("a line without limits");
    };
    let limits = limits_of(heap, depth)?;
    let steps = steps.parse::<u64>()?;
    let test = test_of(alloc, class, method, words.next(), script)?;
    Ok(Case {
        test,
        limits,
        steps,
        by_record,
    })
}
