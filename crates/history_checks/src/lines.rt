//! Each line with what is read. A line is what is asked, the profile number and the bytes in
//! hexadecimal digits: `read`, for the number of records, and whether they are written as they
//! were; `cuts`, for the places of the faults where so many bytes are left, from none on.

use crate::uses::Uses;
use byteorder::{BigEndian, ByteOrder};
use history_file::{read_history, write_history};
use history_rules::HistoryFault;
use std::alloc::Global;

fn digit(byte: u8) -> Option<u8> {
    match byte {
        b'0'..=b'9' => Some(byte - b'0'),
        b'a'..=b'f' => Some(byte - b'a' + 10),
        _ => None,
    }
}

fn bytes_of(alloc: Global, digits: &[u8]) -> anyhow::Result<Vec<u8>> {
    let mut bytes = Vec::new(alloc);
    for pair in digits.chunks(2) {
        let [high, low] = pair else {
            anyhow::bail!("half a byte");
        };
        let (Some(high), Some(low)) = (digit(*high), digit(*low)) else {
            anyhow::bail!("no digit");
        };
        bytes.push(high << 4 | low)?;
    }
    Ok(bytes)
}

fn push(out: &mut String, text: &str) -> anyhow::Result<()> {
    out.push_str(text)?;
    Ok(())
}

fn push_number(out: &mut String, number: u64) -> anyhow::Result<()> {
    let text = format!(in *out.allocator(); "{number}")?;
    push(out, text.as_str())
}

fn push_fault(out: &mut String, fault: HistoryFault) -> anyhow::Result<()> {
    match fault {
        HistoryFault::HistoryBad { at } => push_number(out, at),
        HistoryFault::TooLong { len } => {
            push(out, "too long: ")?;
            push_number(out, len)
        }
        HistoryFault::Memory => push(out, "memory"),
    }
}

// The number of classes that stands in what is written.
fn class_count(text: &[u8]) -> u32 {
    match text.get(8..12) {
        Some(count) if count.len() == 4 => BigEndian::read_u32(count),
        _ => u32::MAX,
    }
}

// Whether names and classes are numbered in the order of their first use in what is written. Names
// may have stood in records that were dropped, too.
fn push_uses(
    uses: &Uses,
    texts: &[&[u8]],
    classes: u32,
    dropped: bool,
    out: &mut String,
) -> anyhow::Result<()> {
    push(out, ", names ")?;
    push_number(out, uses.names() as u64)?;
    if !dropped && !uses.are_names(texts) {
        push(out, " in another order")?;
    }
    if !uses.are_classes(classes) {
        push(out, ", classes in another order")?;
    }
    Ok(())
}

// Whether a history is written as its bytes were, and how many classes and names stand in the text.
fn push_written(
    bytes: &[u8],
    texts: &[&[u8]],
    again: &[u8],
    out: &mut String,
) -> anyhow::Result<()> {
    let same = again == bytes;
    let classes = class_count(again);
    push(
        out,
        if same {
            ", written as they were, classes "
        } else {
            ", written otherwise, classes "
        },
    )?;
    push_number(out, u64::from(classes))?;
    let uses = Uses::of(*out.allocator(), again)?;
    push_uses(&uses, texts, classes, !same, out)
}

// How many records are read, and whether they are written as the bytes were.
fn push_read(alloc: Global, profile: u16, bytes: &[u8], out: &mut String) -> anyhow::Result<()> {
    match read_history(alloc, profile, bytes) {
        Err(fault) => {
            push(out, "bad at ")?;
            push_fault(out, fault)
        }
        Ok(history) => {
            push_number(out, history.rows().len() as u64)?;
            push(out, " records")?;
            match write_history(alloc, profile, &history) {
                Ok(again) => push_written(bytes, history.texts(), again.as_slice(), out),
                Err(fault) => push_fault(out, fault),
            }
        }
    }
}

fn push_cuts(alloc: Global, profile: u16, bytes: &[u8], out: &mut String) -> anyhow::Result<()> {
    for len in 0..bytes.len() {
        if len > 0 {
            push(out, " ")?;
        }
        match read_history(alloc, profile, &bytes[..len]) {
            Err(fault) => push_fault(out, fault)?,
            Ok(_) => push(out, "read")?,
        }
    }
    Ok(())
}

/// A line with what is read of it.
pub fn push_line(line: &str, out: &mut String) -> anyhow::Result<()> {
    let alloc = *out.allocator();
    let Some((asked, rest)) = line.split_once(' ') else {
        anyhow::bail!("a line of one word");
    };
    let Some((profile, digits)) = rest.split_once(' ') else {
        anyhow::bail!("a line of two words");
    };
    let profile = profile.parse::<u16>()?;
    let bytes = bytes_of(alloc, digits.as_bytes())?;
    push(out, line)?;
    push(out, " -> ")?;
    match asked {
        "read" => push_read(alloc, profile, bytes.as_slice(), out)?,
        "cuts" => push_cuts(alloc, profile, bytes.as_slice(), out)?,
        _ => anyhow::bail!("neither read nor cuts"),
    }
    Ok(())
}
