//! Attributes, read and written, and the first fault of damaged ones.

ghost use Rattle.std.specs.Prelude.{◌<◌};

use class_model::{Bytes, CheckedPool, ClassFault, Const, Seq};
use mt_attrs::{Owner, read_attrs, write_attrs};
use mt_bytes::{Cursor, put_u4};
use mt_pool::read_pool;
use std::alloc::Global;
use std::test::Fail;

/// Code, LineNumberTable, StackMapTable, SourceFile, RuntimeVisibleAnnotations, LT;, T.java,
/// Signature, an int, a class, ConstantValue.
const POOL: &[u8] =
    b"\x00\x0c\x01\x00\x04Code\x01\x00\x0fLineNumberTable\x01\x00\x0dStackMapTable\x01\x00\x0aSourceFile\x01\x00\x19RuntimeVisibleAnnotations\x01\x00\x03LT;\x01\x00\x06T.java\x01\x00\x09Signature\x03\x00\x00\x00\x07\x07\x00\x01\x01\x00\x0dConstantValue";

fn pool(alloc: Global) -> Result<Seq<Const>, ClassFault> {
    read_pool(alloc, &mut Cursor::new(POOL, 0))
}

/// Whether an owner's attributes are written as they were read, and are copied.
fn comes_back(alloc: Global, owner: Owner, bytes: &[u8]) -> Result<bool, Fail> {
    let entries = pool(alloc)?;
    let pool = CheckedPool::new(alloc, entries.as_slice())?;
    let mut cur = Cursor::new(bytes, 0);
    let attrs = read_attrs(alloc, &mut cur, owner, &pool)?;
    let mut out: Bytes = Seq::new(alloc);
    write_attrs(&attrs, &mut out)?;
    let copy = attrs.copy()?;
    Ok(copy.len() == attrs.len() && out.as_slice() == bytes)
}

/// An owner, and its attributes.
type AttributesRow = (Owner, &'static [u8]);

const ATTRIBUTES: [AttributesRow; 4] = [
    // iload_0; ifge 6; iconst_1; ireturn; iconst_0; ireturn: line 3, a frame at 6
    (
        Owner::OfMethod,
        &[
            0, 1, 0, 1, 0, 0, 0, 41, 0, 1, 0, 1, 0, 0, 0, 8, 0x1a, 0x9c, 0, 5, 0x04, 0xac, 0x03,
            0xac, 0, 0, 0, 2, 0, 2, 0, 0, 0, 6, 0, 1, 0, 0, 0, 3, 0, 3, 0, 0, 0, 3, 0, 1, 6,
        ],
    ),
    // nop; new; four nops; return, a row over the first two, frames of all far shapes
    (
        Owner::OfMethod,
        &[
            0, 1, 0, 1, 0, 0, 0, 67, 0, 1, 0, 1, 0, 0, 0, 9, 0x00, 0xbb, 0, 10, 0x00, 0x00, 0x00,
            0x00, 0xb1, 0, 1, 0, 0, 0, 4, 0, 4, 0, 0, 0, 1, 0, 3, 0, 0, 0, 32, 0, 6, 65, 7, 0, 10,
            252, 0, 2, 8, 0, 1, 248, 0, 0, 251, 0, 0, 255, 0, 0, 0, 1, 4, 0, 2, 5, 1, 247, 0, 0, 6,
        ],
    ),
    // SourceFile; annotations with an array of an annotation, a class, an enum and an int; a
    // carried attribute
    (
        Owner::OfClass,
        &[
            0, 3, 0, 4, 0, 0, 0, 2, 0, 7, 0, 5, 0, 0, 0, 33, 0, 1, 0, 6, 0, 4, 0, 7, 91, 0, 1, 64,
            0, 6, 0, 0, 0, 7, 99, 0, 6, 0, 7, 101, 0, 6, 0, 7, 0, 7, 73, 0, 9, 0, 8, 0, 0, 0, 0,
        ],
    ),
    // ConstantValue
    (Owner::OfField, &[0, 1, 0, 11, 0, 0, 0, 2, 0, 9]),
];

/// The number of the first attributes that come back as others; how many rows there are, where none
/// do.
fn first_changed(alloc: Global, rows: &[AttributesRow]) -> Result<usize, Fail> {
    for i in 0..rows.len() {
        let (owner, bytes) = rows[i];
        if !comes_back(alloc, owner, bytes)? {
            return Ok(i);
        }
    }
    Ok(rows.len())
}

fn changed_of_attributes(alloc: Global) -> Result<usize, Fail> {
    first_changed(alloc, &ATTRIBUTES)
}

#[test]
fn attributes_come_back(rt: HostRuntime) -> Result<(), Fail> {
    assert_eq!(rt; changed_of_attributes(rt.alloc())?, 4);
    Ok(())
}

// What is told of the attributes of a class, whose count is at place 100 of its file.
type FaultRow = (&'static [u8], ClassFault);

const WRONG_ATTRIBUTES: [FaultRow; 5] = [
    // a length that is too short and one that is too long
    (
        &[0, 1, 0, 4, 0, 0, 0, 1, 0, 7],
        ClassFault::BadLength { at: 102 },
    ),
    (
        &[0, 1, 0, 4, 0, 0, 0, 3, 0, 7, 0],
        ClassFault::BadLength { at: 102 },
    ),
    // a second SourceFile
    (
        &[0, 2, 0, 4, 0, 0, 0, 2, 0, 7, 0, 4, 0, 0, 0, 2, 0, 7],
        ClassFault::BadLength { at: 110 },
    ),
    // a content that the file cuts, and a name that is none
    (
        &[0, 1, 0, 8, 0, 0, 0, 3, 0, 7],
        ClassFault::Truncated { at: 108 },
    ),
    (&[0, 1, 0, 9, 0, 0, 0, 0], ClassFault::BadIndex { at: 102 }),
];

/// The number of the first attributes of which another fault is told; how many rows there are,
/// where none is.
fn first_other(alloc: Global, rows: &[FaultRow]) -> Result<usize, Fail> {
    let pool = pool(alloc)?;
    let pool = CheckedPool::new(alloc, pool.as_slice())?;
    for i in 0..rows.len() {
        let (bytes, fault) = rows[i];
        if bytes.len() >= 100 {
            return Ok(i);
        }
        let mut cur = Cursor::new(bytes, 100);
        if read_attrs(alloc, &mut cur, Owner::OfClass, &pool).err() != Some(fault) {
            return Ok(i);
        }
    }
    Ok(rows.len())
}

fn other_of_wrong_attributes(alloc: Global) -> Result<usize, Fail> {
    first_other(alloc, &WRONG_ATTRIBUTES)
}

#[test]
fn faults_of_lengths_and_names(rt: HostRuntime) -> Result<(), Fail> {
    assert_eq!(rt; other_of_wrong_attributes(rt.alloc())?, 5);
    Ok(())
}

/// The attributes of a class with one annotation, in which so many arrays stand in one another.
fn with_arrays(alloc: Global, count: u32) -> Result<Bytes, Fail>
    requires { count < 2000000 }
{
    let mut bytes: Bytes = Seq::new(alloc);
    // one RuntimeVisibleAnnotations, whose content has 11 bytes beside those of the arrays
    bytes.extend_from_slice(&[0, 1, 0, 5])?;
    put_u4(&mut bytes, 11 + 3 * count)?;
    bytes.extend_from_slice(&[0, 1, 0, 6, 0, 1, 0, 7])?;
    for _ in 0..count {
        bytes.extend_from_slice(&[91, 0, 1])?;
    }
    bytes.extend_from_slice(&[115, 0, 7])?;
    Ok(bytes)
}

// No clause says that it takes no stack.
#[test]
fn arrays_in_each_other(rt: HostRuntime) -> Result<(), Fail> {
    for count in [900, 2000, 1000000] {
        let bytes = with_arrays(rt.alloc(), count)?;
        assert!(rt;
            comes_back(rt.alloc(), Owner::OfClass, bytes.as_slice())?,
            "{count}"
        );
    }
    Ok(())
}
