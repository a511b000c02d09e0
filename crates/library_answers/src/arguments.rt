//! The value of a word, with its object in the heap.

use crate::classes::{CLASS, THROWABLE, class_of};
use class_model::{ClassId, Kind, Memory, Name, Seq};
use jvm_values::{Heap, HeapFault, ObjKind, Object};
use lib_core::{NativeEnd, units_of};
use program_rules::Value;
use std::alloc::Global;

/// What the words `first` and `made` of a line stand for: the first argument of all, and what the
/// first call gave.
#[derive(Clone, Copy)]
pub struct Named {
    pub first: Value,
    pub made: Value,
}

impl Named {
    /// Nothing yet.
    pub fn new() -> Named {
        Named {
            first: Value::Null,
            made: Value::Null,
        }
    }

    /// Notes a call, if it is the first that has such a value.
    pub fn note(&mut self, args: &[Value], end: &NativeEnd) {
        if let [v, ..] = args {
            if matches!(self.first, Value::Null) {
                self.first = *v;
            }
        }
        if let NativeEnd::Returns(Some(v)) = end {
            if matches!(self.made, Value::Null) {
                self.made = *v;
            }
        }
    }
}

fn put_text(heap: &mut Heap, units: Name) -> Result<Value, HeapFault> {
    let number = heap.text(&units)?;
    Ok(Value::Ref(number))
}

fn text(alloc: Global, heap: &mut Heap, text: &str) -> Result<Value, HeapFault> {
    let units = units_of(alloc, text.as_bytes())?;
    put_text(heap, units)
}

// A field: a number, one of eight bytes with `L` behind it, null or a text.
fn field(alloc: Global, heap: &mut Heap, word: &str) -> anyhow::Result<Value> {
    if word == "null" {
        return Ok(Value::Null);
    }
    if let Some(digits) = word.strip_suffix('L') {
        return Ok(Value::Long(digits.parse::<i64>()?));
    }
    match word.parse::<i32>() {
        Ok(number) => Ok(Value::Int(number)),
        Err(_) => Ok(text(alloc, heap, word)?),
    }
}

// The fields of a word with commas between them.
fn fields(alloc: Global, heap: &mut Heap, content: &str) -> anyhow::Result<Seq<Value>> {
    let mut values = Seq::new(alloc);
    if content.is_empty() {
        return Ok(values);
    }
    for word in content.split(',') {
        let v = field(alloc, heap, word)?;
        values.push(v)?;
    }
    Ok(values)
}

// The units of these numbers.
fn units(alloc: Global, content: &str) -> anyhow::Result<Name> {
    let mut units = Seq::new(alloc);
    for word in content.split(',') {
        units.push(word.parse::<u16>()?)?;
    }
    Ok(units)
}

fn put(
    heap: &mut Heap,
    kind: ObjKind,
    values: Seq<Value>,
    text: Name,
    items: Seq<Value>,
) -> Result<Value, HeapFault> {
    let object = Object {
        kind,
        values,
        text,
        items,
    };
    let number = heap.add(object, 2)?;
    Ok(Value::Ref(number))
}

// An array, or an object with fields.
fn put_values(heap: &mut Heap, kind: ObjKind, values: Seq<Value>) -> Result<Value, HeapFault> {
    let alloc = values.allocator();
    put(heap, kind, values, Seq::new(alloc), Seq::new(alloc))
}

// An object of a native class.
fn put_items(heap: &mut Heap, class: u32, items: Seq<Value>) -> Result<Value, HeapFault> {
    let alloc = items.allocator();
    let kind = ObjKind::Plain(ClassId(class));
    put(heap, kind, Seq::new(alloc), Seq::new(alloc), items)
}

// The object that stands for a class.
fn put_class(alloc: Global, heap: &mut Heap, name: &str) -> Result<Value, HeapFault> {
    let text = units_of(alloc, name.as_bytes())?;
    let kind = ObjKind::Plain(ClassId(CLASS));
    put(heap, kind, Seq::new(alloc), text, Seq::new(alloc))
}

fn object_array(alloc: Global) -> Result<ObjKind, Memory> {
    let name = units_of(alloc, "java/lang/Object".as_bytes())?;
    Ok(ObjKind::Array(Kind::Ref(name)))
}

// An object whose fields stand in a word.
fn with_fields(
    heap: &mut Heap,
    alloc: Global,
    word: &str,
    fields: Seq<Value>,
) -> anyhow::Result<Value> {
    match word {
        "char[]" => Ok(put_values(heap, ObjKind::Array(Kind::Char), fields)?),
        "Object[]" => {
            let kind = object_array(alloc)?;
            Ok(put_values(heap, kind, fields)?)
        }
        "Throwable" => Ok(put_values(heap, ObjKind::Plain(ClassId(THROWABLE)), fields)?),
        _ => match class_of(word) {
            Some(class) => Ok(put_items(heap, class, fields)?),
            None => anyhow::bail!("an object of no class"),
        },
    }
}

// An object: a word for what it is, and what stands behind its colon.
fn object(alloc: Global, heap: &mut Heap, word: &str, content: &str) -> anyhow::Result<Value> {
    match word {
        "text" => Ok(text(alloc, heap, content)?),
        "units" => {
            let units = units(alloc, content)?;
            Ok(put_text(heap, units)?)
        }
        "Class" => Ok(put_class(alloc, heap, content)?),
        _ => {
            let fields = fields(alloc, heap, content)?;
            with_fields(heap, alloc, word, fields)
        }
    }
}

// The value of a word: an object with a colon behind what it is, what the line has named, or a
// field.
fn argument(alloc: Global, heap: &mut Heap, named: Named, word: &str) -> anyhow::Result<Value> {
    if let Some((kind, content)) = word.split_once(':') {
        return object(alloc, heap, kind, content);
    }
    match word {
        "first" => Ok(named.first),
        "made" => Ok(named.made),
        _ => field(alloc, heap, word),
    }
}

/// The number of a call, and the words behind its name.
pub fn number_of(call: &str) -> anyhow::Result<(usize, &str)> {
    let Some((number, words)) = call.split_once(' ') else {
        anyhow::bail!("a call without a name");
    };
    let number = number.parse::<usize>()?;
    match words.split_once(' ') {
        Some((_, words)) => Ok((number, words)),
        None => Ok((number, "")),
    }
}

/// The values of words.
pub fn arguments(
    alloc: Global,
    heap: &mut Heap,
    named: Named,
    words: &str,
) -> anyhow::Result<Vec<Value>> {
    let mut values = Vec::new(alloc);
    if words.is_empty() {
        return Ok(values);
    }
    for word in words.split(' ') {
        let v = argument(alloc, heap, named, word)?;
        values.push(v)?;
    }
    Ok(values)
}
