use crate::assemble;
use class_asm::AsmFault;
use class_model::Bytes;
use std::alloc::Global;
use std::test::Fail;

// `static boolean f(int)` of the class A, which answers whether its argument is below 0, with its
// lines and frames.
const A: [u8; 160] = [
    0xca, 0xfe, 0xba, 0xbe, 0x00, 0x00, 0x00, 0x34, 0x00, 0x0a, 0x01, 0x00, 0x01, 0x41, 0x07, 0x00,
    0x01, 0x01, 0x00, 0x10, 0x6a, 0x61, 0x76, 0x61, 0x2f, 0x6c, 0x61, 0x6e, 0x67, 0x2f, 0x4f, 0x62,
    0x6a, 0x65, 0x63, 0x74, 0x07, 0x00, 0x03, 0x01, 0x00, 0x01, 0x66, 0x01, 0x00, 0x04, 0x28, 0x49,
    0x29, 0x5a, 0x01, 0x00, 0x04, 0x43, 0x6f, 0x64, 0x65, 0x01, 0x00, 0x0f, 0x4c, 0x69, 0x6e, 0x65,
    0x4e, 0x75, 0x6d, 0x62, 0x65, 0x72, 0x54, 0x61, 0x62, 0x6c, 0x65, 0x01, 0x00, 0x0d, 0x53, 0x74,
    0x61, 0x63, 0x6b, 0x4d, 0x61, 0x70, 0x54, 0x61, 0x62, 0x6c, 0x65, 0x00, 0x21, 0x00, 0x02, 0x00,
    0x04, 0x00, 0x00, 0x00, 0x00, 0x00, 0x01, 0x00, 0x09, 0x00, 0x05, 0x00, 0x06, 0x00, 0x01, 0x00,
    0x07, 0x00, 0x00, 0x00, 0x29, 0x00, 0x01, 0x00, 0x01, 0x00, 0x00, 0x00, 0x08, 0x1a, 0x9c, 0x00,
    0x05, 0x04, 0xac, 0x03, 0xac, 0x00, 0x00, 0x00, 0x02, 0x00, 0x08, 0x00, 0x00, 0x00, 0x06, 0x00,
    0x01, 0x00, 0x00, 0x00, 0x03, 0x00, 0x09, 0x00, 0x00, 0x00, 0x03, 0x00, 0x01, 0x06, 0x00, 0x00,
];

// `static long g()` of the class L, which loads the text "L" and twice the number 5. The text and
// the class have one name in the pool, and the number stands there once, in two places.
const L: [u8; 119] = [
    0xca, 0xfe, 0xba, 0xbe, 0x00, 0x00, 0x00, 0x34, 0x00, 0x0b, 0x01, 0x00, 0x01, 0x4c, 0x07, 0x00,
    0x01, 0x01, 0x00, 0x10, 0x6a, 0x61, 0x76, 0x61, 0x2f, 0x6c, 0x61, 0x6e, 0x67, 0x2f, 0x4f, 0x62,
    0x6a, 0x65, 0x63, 0x74, 0x07, 0x00, 0x03, 0x01, 0x00, 0x01, 0x67, 0x01, 0x00, 0x03, 0x28, 0x29,
    0x4a, 0x01, 0x00, 0x04, 0x43, 0x6f, 0x64, 0x65, 0x08, 0x00, 0x01, 0x05, 0x00, 0x00, 0x00, 0x00,
    0x00, 0x00, 0x00, 0x05, 0x00, 0x21, 0x00, 0x02, 0x00, 0x04, 0x00, 0x00, 0x00, 0x00, 0x00, 0x01,
    0x00, 0x09, 0x00, 0x05, 0x00, 0x06, 0x00, 0x01, 0x00, 0x07, 0x00, 0x00, 0x00, 0x17, 0x00, 0x04,
    0x00, 0x00, 0x00, 0x00, 0x00, 0x0b, 0x12, 0x08, 0x57, 0x14, 0x00, 0x09, 0x14, 0x00, 0x09, 0x61,
    0xad, 0x00, 0x00, 0x00, 0x00, 0x00, 0x00,
];

// Texts and their class files.
type RightRow = (&'static str, &'static [u8]);

const RIGHT: [RightRow; 2] = [
    (
        "class A super java/lang/Object flags 33 major 52
method 9 f (I)Z stack 1 locals 1
line 3
iload_0
ifge L
iconst_1
ireturn
L:
frame same
iconst_0
ireturn
end
",
        &A,
    ),
    (
        "class L super java/lang/Object flags 33 major 52
method 9 g ()J stack 4 locals 0
ldc \"L\"
pop
ldc2_w 5
ldc2_w 5
ladd
lreturn
end
",
        &L,
    ),
];

// Texts that state no class, and the first line at fault.
type WrongRow = (&'static str, u64);

const WRONG: [WrongRow; 8] = [
    ("", 1),
    // no end
    ("class A super B flags 1 major 52\n", 2),
    // a leading zero
    ("class A super B flags 01 major 52\nend\n", 1),
    // a blank line and a comment count
    ("\n# A\nclass A super B flags 1 major 53\nend\n", 3),
    // a line behind the end
    ("class A super B flags 1 major 52\nend\nend\n", 3),
    // an interface behind the source
    (
        "class A super B flags 1 major 52\nsource A.java\nimplements C\nend\n",
        3,
    ),
    // a float
    ("class A super B flags 1 major 52\nfield 1 a F\nend\n", 2),
    // a code without an instruction
    (
        "class A super B flags 1 major 52\nmethod 1 a ()V stack 1 locals 1\nend\n",
        2,
    ),
];

const HEAD: &str = "class A super B flags 1 major 52\nmethod 1 a ()V stack 1 locals 1\n";

// The same of what stands behind `HEAD`.
const WRONG_CODES: [WrongRow; 12] = [
    ("lien 3\nreturn\nend\n", 3),
    // a label that the method doesn't have
    ("goto L\nreturn\nend\n", 3),
    // a label that stands on a wrong line
    ("goto L\nL: nop\nreturn\nend\n", 3),
    // a label with no instruction behind it
    ("goto L\nL:\nend\n", 3),
    // the second label of a name
    ("L:\nreturn\nL:\nreturn\nend\n", 5),
    // a handler that covers nothing
    ("L:\nhandler L L L any\nreturn\nend\n", 4),
    // a second frame at one instruction
    ("frame same\nframe same\nreturn\nend\n", 4),
    // code behind the notes behind a code
    ("return\nnote LN;\nreturn\nend\n", 5),
    // no form behind `wide`
    ("wide iload_0\nreturn\nend\n", 3),
    // a text without its closing quote
    ("ldc \"a\nreturn\nend\n", 3),
    // an array of floats
    ("anewarray [F\nreturn\nend\n", 3),
    // a number past its range
    ("bipush 128\nreturn\nend\n", 3),
];

// The line that is told of a text; none where it is assembled.
fn told_of(alloc: Global, text: &[u8]) -> Result<Option<u64>, Fail> {
    match assemble(alloc, text) {
        Ok(_) => Ok(None),
        Err(AsmFault::Line { line }) => Ok(Some(line)),
        Err(fault) => Err(fault.into()),
    }
}

// The number of the first text that is another class; how many there are, where none is.
fn first_other_class(alloc: Global, rows: &[RightRow]) -> Result<usize, Fail> {
    for i in 0..rows.len() {
        let (text, class) = rows[i];
        let bytes = assemble(alloc, text.as_bytes())?;
        if bytes.as_slice() != class {
            return Ok(i);
        }
    }
    Ok(rows.len())
}

fn other_of_right(alloc: Global) -> Result<usize, Fail> {
    first_other_class(alloc, &RIGHT)
}

#[test]
fn classes_are_assembled(rt: HostRuntime) -> Result<(), Fail> {
    assert_eq!(rt; other_of_right(rt.alloc())?, 2);
    Ok(())
}

// The number of the first text, behind this head, of which another line is told; how many there
// are, where none is.
fn first_other_line(alloc: Global, head: &str, rows: &[WrongRow]) -> Result<usize, Fail> {
    for i in 0..rows.len() {
        let (lines, line) = rows[i];
        let mut text = Bytes::from_slice(alloc, head.as_bytes())?;
        text.extend_from_slice(lines.as_bytes())?;
        if told_of(alloc, text.as_slice())? != Some(line) {
            return Ok(i);
        }
    }
    Ok(rows.len())
}

fn other_of_wrong(alloc: Global) -> Result<usize, Fail> {
    first_other_line(alloc, "", &WRONG)
}

fn other_of_wrong_codes(alloc: Global) -> Result<usize, Fail> {
    first_other_line(alloc, HEAD, &WRONG_CODES)
}

#[test]
fn first_wrong_lines_are_told(rt: HostRuntime) -> Result<(), Fail> {
    assert_eq!(rt; other_of_wrong(rt.alloc())?, 8);
    assert_eq!(rt; other_of_wrong_codes(rt.alloc())?, 12);
    Ok(())
}
