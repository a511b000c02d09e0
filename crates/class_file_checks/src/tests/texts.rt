//! Modified UTF-8 both ways (JVMS 4.4.7).

use class_model::{Seq, TextFault, read_text, write_text};
use std::alloc::Global;
use std::test::Fail;

// Code units with their bytes, from JVMS 4.4.7.
type FormRow = (&'static [u16], &'static [u8]);

const FORMS: [FormRow; 8] = [
    (&[], &[]),
    (&[0], &[0xC0, 0x80]),
    (&[0x41, 0x7F], &[0x41, 0x7F]),
    (&[0x80], &[0xC2, 0x80]),
    (&[0x7FF], &[0xDF, 0xBF]),
    (&[0x800], &[0xE0, 0xA0, 0x80]),
    (&[0xD83D, 0xDE00], &[0xED, 0xA0, 0xBD, 0xED, 0xB8, 0x80]),
    (&[0xFFFF], &[0xEF, 0xBF, 0xBF]),
];

fn is_form(alloc: Global, units: &[u16], bytes: &[u8]) -> Result<bool, Fail> {
    let name = Seq::from_slice(alloc, units)?;
    let is_written = write_text(alloc, &name)?.as_slice() == bytes;
    Ok(is_written && read_text(alloc, bytes)?.as_slice() == units)
}

/// The number of the first row that isn't so; how many there are, where each is.
fn first_other_form(alloc: Global, rows: &[FormRow]) -> Result<usize, Fail> {
    for i in 0..rows.len() {
        let (units, bytes) = rows[i];
        if !is_form(alloc, units, bytes)? {
            return Ok(i);
        }
    }
    Ok(rows.len())
}

fn other_of_forms(alloc: Global) -> Result<usize, Fail> {
    first_other_form(alloc, &FORMS)
}

#[test]
fn units_have_their_shortest_form(rt: HostRuntime) -> Result<(), Fail> {
    assert_eq!(rt; other_of_forms(rt.alloc())?, 8);
    Ok(())
}

// Bytes that are no text, with the place where no unit begins.
type OtherRow = (&'static [u8], u64);

const OTHER_FORMS: [OtherRow; 13] = [
    (&[0x00], 0),
    (&[0x80], 0),
    (&[0xC0], 0),
    (&[0xC0, 0x81], 0),
    (&[0xC1, 0xBF], 0),
    (&[0x41, 0xC2, 0x41], 1),
    (&[0xE0, 0xA0], 0),
    (&[0xE0, 0x80, 0x80], 0),
    (&[0xC2, 0x80, 0xE0, 0x9F, 0xBF], 2),
    (&[0xE1, 0x80, 0xC0], 0),
    (&[0xF0, 0x9F, 0x98, 0x80], 0),
    (&[0x61, 0x62, 0xFF], 2),
    (&[0xED, 0xA0, 0xBD, 0xED], 3),
];

/// The number of the first row of which another place is told; how many there are, where none is.
fn first_other_place(alloc: Global, rows: &[OtherRow]) -> usize {
    for i in 0..rows.len() {
        let (bytes, at) = rows[i];
        if read_text(alloc, bytes) != Err(TextFault::BadText { at }) {
            return i;
        }
    }
    rows.len()
}

fn other_of_other_forms(alloc: Global) -> usize {
    first_other_place(alloc, &OTHER_FORMS)
}

#[test]
fn other_forms_are_refused(rt: HostRuntime) -> Result<(), Fail> {
    assert_eq!(rt; other_of_other_forms(rt.alloc()), 13);
    Ok(())
}
