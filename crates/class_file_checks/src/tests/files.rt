//! Whole class files, read and written, and the first fault of damaged ones.

use class_model::ClassFault;
use class_reader::read_class;
use class_writer::{what_is_spelled_is_written, write_class};
use sample_classes::{A, A_BARE, T};
use std::alloc::Global;
use std::test::Fail;

/// Whether a class file of so many methods is written as it was read, and its class copied.
fn comes_back(alloc: Global, bytes: &[u8], methods: usize) -> Result<bool, Fail> {
    what_is_spelled_is_written();
    let class = read_class(alloc, bytes)?;
    let written = write_class(alloc, &class)?;
    let copy = class.copy()?;
    Ok(copy.major == 52 && copy.methods.len() == methods && written.as_slice() == bytes)
}

fn a_comes_back(alloc: Global) -> Result<bool, Fail> {
    comes_back(alloc, &A, 1)
}

fn a_bare_comes_back(alloc: Global) -> Result<bool, Fail> {
    comes_back(alloc, &A_BARE, 1)
}

fn t_comes_back(alloc: Global) -> Result<bool, Fail> {
    comes_back(alloc, &T, 3)
}

#[test]
fn what_is_read_is_written(rt: HostRuntime) -> Result<(), Fail> {
    assert!(rt; a_comes_back(rt.alloc())?);
    assert!(rt; a_bare_comes_back(rt.alloc())?);
    assert!(rt; t_comes_back(rt.alloc())?);
    Ok(())
}

// A place of A, the two bytes that stand there instead, and what is told.
type Damage = (usize, u8, u8, ClassFault);

const DAMAGES: [Damage; 9] = [
    (0, 0xcb, 0xfe, ClassFault::BadMagic),
    (6, 0x00, 0x35, ClassFault::BadVersion { major: 53 }),
    (14, 0x02, 0x00, ClassFault::BadTag { at: 14, tag: 2 }),
    // this class and its superclass
    (93, 0x00, 0x03, ClassFault::BadIndex { at: 93 }),
    (95, 0x00, 0x00, ClassFault::BadIndex { at: 95 }),
    // the method's name and descriptor
    (105, 0x00, 0x03, ClassFault::BadText { at: 105 }),
    (107, 0x00, 0x05, ClassFault::BadText { at: 107 }),
    (126, 0xa8, 0x00, ClassFault::BadOpcode { at: 126, op: 168 }),
    (127, 0x00, 0x01, ClassFault::BadTarget { at: 126 }),
];

fn told_of(alloc: Global, file: &[u8], row: &Damage) -> Result<Option<ClassFault>, Fail> {
    let (at, first, second, _) = *row;
    let mut bytes = file.to_vec(alloc)?;
    if let Some(there) = bytes.get_mut(at) {
        *there = first;
    }
    if let Some(there) = bytes.get_mut(at.saturating_add(1)) {
        *there = second;
    }
    Ok(read_class(alloc, bytes.as_slice()).err())
}

/// The number of the first row of which another fault is told; how many rows there are, where none
/// is.
fn first_other(alloc: Global, file: &[u8], rows: &[Damage]) -> Result<usize, Fail> {
    for i in 0..rows.len() {
        let (_, _, _, fault) = rows[i];
        if told_of(alloc, file, &rows[i])? != Some(fault) {
            return Ok(i);
        }
    }
    Ok(rows.len())
}

fn other_of_damages(alloc: Global) -> Result<usize, Fail> {
    first_other(alloc, &A, &DAMAGES)
}

/// What is told of a file with a byte behind it.
fn told_of_longer(alloc: Global, file: &[u8]) -> Result<Option<ClassFault>, Fail> {
    let mut longer = file.to_vec(alloc)?;
    longer.push(0)?;
    Ok(read_class(alloc, longer.as_slice()).err())
}

fn told_of_longer_a(alloc: Global) -> Result<Option<ClassFault>, Fail> {
    told_of_longer(alloc, &A)
}

#[test]
fn damaged_files_are_refused_at_their_place(rt: HostRuntime) -> Result<(), Fail> {
    assert_eq!(rt; other_of_damages(rt.alloc())?, 9);
    let behind = told_of_longer_a(rt.alloc())?;
    assert!(rt; behind == Some(ClassFault::TrailingBytes { at: 160 }));
    Ok(())
}

/// Where the beginning of a file of this length is told to be cut.
fn cut_of(alloc: Global, file: &[u8], length: usize) -> Option<u64> {
    match read_class(alloc, &file[..length.min(file.len())]) {
        Err(ClassFault::Truncated { at }) => Some(at),
        _ => None,
    }
}

fn cut_of_a(alloc: Global, length: usize) -> Option<u64> {
    cut_of(alloc, &A, length)
}

/// The length of the first beginning that isn't told to be cut inside itself.
fn first_uncut(alloc: Global, file: &[u8]) -> usize {
    for length in 0..file.len() {
        if !cut_of(alloc, file, length).is_some_and(|at| at <= length as u64) {
            return length;
        }
    }
    file.len()
}

fn uncut_of_a(alloc: Global) -> usize {
    first_uncut(alloc, &A)
}

#[test]
fn each_beginning_is_cut_inside_an_item(rt: HostRuntime) -> Result<(), Fail> {
    for (length, at) in [(0, 0), (3, 0), (9, 8), (159, 158)] {
        assert_eq!(rt; cut_of_a(rt.alloc(), length), Some(at), "at {length}");
    }
    assert_eq!(rt; uncut_of_a(rt.alloc()), 160);
    Ok(())
}
