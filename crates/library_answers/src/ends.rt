//! What a call came to, in the words in which arguments are written.

use crate::classes::{HUE, LIST, TEXT, word_of};
use class_model::{ClassId, Kind, Memory, Name};
use jvm_values::{Heap, ObjKind, Object};
use lib_core::NativeEnd;
use program_rules::{Fault, Value};

/// Adds a text.
pub fn push(out: &mut String, text: &str) -> Result<(), Memory> {
    out.push_str(text)?;
    Ok(())
}

fn push_chars(out: &mut String, units: &[u16]) -> Result<(), Memory> {
    let text = String::from_utf16_lossy(*out.allocator(), units)?;
    push(out, text.as_str())
}

fn push_long(out: &mut String, number: i64, behind: &str) -> Result<(), Memory> {
    let text = format!(in *out.allocator(); "{number}{behind}")?;
    push(out, text.as_str())
}

fn is_plain(units: &[u16]) -> bool {
    for unit in units {
        if *unit <= 32 || *unit >= 127 {
            return false;
        }
    }
    true
}

fn push_numbers(out: &mut String, units: &[u16]) -> Result<(), Memory> {
    for (i, unit) in units.iter().enumerate() {
        push_long(
            out,
            *unit as i64,
            if i + 1 < units.len() { "," } else { "" },
        )?;
    }
    Ok(())
}

// A text: its characters if they are seen and ASCII, else its units.
fn push_text(out: &mut String, units: &[u16]) -> Result<(), Memory> {
    if is_plain(units) {
        push(out, "text:")?;
        push_chars(out, units)
    } else {
        push(out, "units:")?;
        push_numbers(out, units)
    }
}

// What is held within another object.
fn push_held(out: &mut String, object: Option<&Object>) -> Result<(), Memory> {
    match object {
        Some(object) => match &object.kind {
            ObjKind::Text | ObjKind::Plain(ClassId(TEXT)) => push_chars(
                out,
                object.text.as_slice(),
            ),
            ObjKind::Plain(class) => push(out, word_of(*class)),
            ObjKind::Array(_) => push(out, "array"),
        },
        None => push(out, "no object"),
    }
}

fn push_field(heap: &Heap, v: Value, out: &mut String) -> Result<(), Memory> {
    match v {
        Value::Int(number) => push_long(out, number as i64, ""),
        Value::Long(number) => push_long(out, number, "L"),
        Value::Null => push(out, "null"),
        Value::Ref(x) => push_held(out, heap.get(x)),
    }
}

fn push_fields(heap: &Heap, values: &[Value], out: &mut String) -> Result<(), Memory> {
    for (i, v) in values.iter().enumerate() {
        push_field(heap, *v, out)?;
        push(out, if i + 1 < values.len() { "," } else { "" })?;
    }
    Ok(())
}

fn push_object(heap: &Heap, object: &Object, out: &mut String) -> Result<(), Memory> {
    let word = match &object.kind {
        ObjKind::Text | ObjKind::Plain(ClassId(TEXT)) => return push_text(
            out,
            object.text.as_slice(),
        ),
        ObjKind::Plain(class) => word_of(*class),
        ObjKind::Array(Kind::Char) => "char[]",
        ObjKind::Array(_) => "array",
    };
    push(out, word)?;
    push(out, ":")?;
    push_fields(heap, object.values.as_slice(), out)?;
    push_fields(heap, object.items.as_slice(), out)
}

fn push_value(heap: &Heap, v: Value, out: &mut String) -> Result<(), Memory> {
    match v {
        Value::Ref(x) => match heap.get(x) {
            Some(object) => push_object(heap, object, out),
            None => push(out, "no object"),
        },
        _ => push_field(heap, v, out),
    }
}

fn word_of_fault(fault: Fault) -> &'static str {
    match fault {
        Fault::AssertionError => "AssertionError",
        Fault::NullPointerException => "NullPointerException",
        Fault::ArithmeticException => "ArithmeticException",
        Fault::NegativeArraySizeException => "NegativeArraySizeException",
        Fault::ClassCastException => "ClassCastException",
        Fault::IndexOutOfBoundsException => "IndexOutOfBoundsException",
        Fault::StringIndexOutOfBoundsException => "StringIndexOutOfBoundsException",
        Fault::IllegalArgumentException => "IllegalArgumentException",
        Fault::NumberFormatException => "NumberFormatException",
        Fault::UnsupportedOperationException => "UnsupportedOperationException",
        Fault::NoSuchElementException => "NoSuchElementException",
        _ => "another exception",
    }
}

// Whether an object is of a class or of one below it, which is told of Enum alone: a constant of
// `Hue` is.
fn is_within(object: Option<&Object>, class: &Name) -> Result<bool, Memory> {
    let Some(object) = object else {
        return Ok(false);
    };
    let name = String::from_utf16_lossy(class.allocator(), class.as_slice())?;
    let is_constant = matches!(object.kind, ObjKind::Plain(ClassId(HUE)));
    Ok(is_constant && name.as_str() == "java/lang/Enum")
}

/// What a call came to.
pub fn push_end(heap: &Heap, end: &NativeEnd, out: &mut String) -> Result<(), Memory> {
    match end {
        NativeEnd::Returns(Some(v)) => push_value(heap, *v, out),
        NativeEnd::Returns(None) => push(out, "nothing"),
        NativeEnd::Raises(fault) => push(out, word_of_fault(*fault)),
        NativeEnd::ReturnsClass(name) => {
            push(out, "Class:")?;
            push_chars(out, name.as_slice())
        }
        NativeEnd::ReturnsWithin(x, class, v, fault) => {
            if is_within(heap.get(*x), class)? {
                push_value(heap, *v, out)
            } else {
                push(out, word_of_fault(*fault))
            }
        }
        NativeEnd::NoResult => push(out, "no row"),
    }
}

/// What a list holds; of another value nothing.
pub fn push_list(heap: &Heap, v: Value, out: &mut String) -> Result<(), Memory> {
    if let Value::Ref(x) = v {
        if let Some(object) = heap.get(x) {
            if matches!(object.kind, ObjKind::Plain(ClassId(LIST))) {
                push(out, " leaves ")?;
                return push_object(heap, object, out);
            }
        }
    }
    Ok(())
}
