//! The heap: objects by their numbers, and the words that they took.

ghost use Rattle.std.specs.Prelude.{◌≡◌, ◌+◌, ◌^◌, ◌≤◌, ◌<◌, ◌↔◌, [], ◌∷◌, ◌++◌, length, slice_get, slice_set, OnOk, OnErr, IfOk, IsOkUnless, IsSome, IsTrue, true, IfErr};
ghost use Rattle.std.specs.Bool.{OnTrue, OnFalse};
ghost use Rattle.std.specs.Option.{option_copied};
ghost use Rattle.jvm_values.specs.Contents.{no_objects, object_at, next_number, IsPassedBy, IsFullWhere, IsFullPast, with_object, with_words, with_object_at, fits_with, HasSlot, HasSlotAt, SetsSlot, SetsSlotAt};
ghost use Rattle.jvm_values.specs.Words.{object_words, array_words, text_words, with_new_object, with_new_array, with_new_text};

use crate::defaults::{default_elements, default_fields};
use crate::fault::HeapFault;
use crate::object::{ArrayKind, ObjKind, Object};
use class_model::{ClassId, Kind, Name, Seq};
use program_rules::Value;
use std::alloc::Global;
use std::marker::Model;
use std::mem;

/// The objects of a run by their numbers, from 1, and the words that they took. Nothing is given
/// back.
#[derive(Drop)]
pub struct Heap {
    objects: Vec<Object>,
    words: u32,
    limit: u32,
}

impl Model for Heap {
    ghost use Rattle.std.specs.Prelude.{◌≤◌, length};
    ghost use Rattle.jvm_values.specs.Contents.{Contents};

    ghost Value = { Contents };

    ghost view = { λ h. record { objects = h.objects.items; used = h.words; limit = h.limit } };

    // each object took at least one word, so its number fits
    ghost invariant = { λ h. (h.words ≤ h.limit) × (length h.objects.items ≤ h.words) };
}

impl Heap {
    /// An empty heap of so many words.
    pub fn new(alloc: Global, limit: u32) -> Heap
        ensures { result ≡ no_objects limit }
    {
        Heap {
            objects: Vec::new(alloc),
            words: 0,
            limit,
        }
    }

    /// Makes an object of a class with such fields, each with its first value (JVMS 2.3, 2.4). It
    /// takes one word, and one for each field.
    pub fn object(&mut self, class: ClassId, fields: &Seq<Kind>) -> Result<u32, HeapFault>
        ensures number { IfOk result (λ number. number ≡ next_number self.old) }
        ensures heap { OnOk result (self.new ≡ with_new_object self.old class.0 fields.now) }
        ensures full { (result ≡ Err HeapFault.Full)
            ↔ IsPassedBy self.old (object_words fields.now) }
        ensures err { OnErr result (self.new ≡ self.old) }
    {
        let words = words_with(self.words, self.limit, 1, fields.len())?;
        let alloc = *self.objects.allocator();
        let object = Object {
            kind: ObjKind::Plain(class),
            values: default_fields(alloc, fields.as_slice())?,
            text: Seq::new(alloc),
            items: Seq::new(alloc),
        };
        let number = add(&mut self.objects, object)?;
        self.words = words;
        Ok(number)
    }

    /// Makes an array of so many elements, each with its first value. It takes two words, and one
    /// for each element.
    pub fn array(&mut self, of: ArrayKind, len: u32) -> Result<u32, HeapFault>
        ensures number { IfOk result (λ number. number ≡ next_number self.old) }
        ensures heap { OnOk result (self.new ≡ with_new_array self.old of len) }
        ensures full { (result ≡ Err HeapFault.Full) ↔ IsPassedBy self.old (array_words len) }
        ensures err { OnErr result (self.new ≡ self.old) }
    {
        let words = words_with(self.words, self.limit, 2, len as usize)?;
        let alloc = *self.objects.allocator();
        let object = Object {
            values: default_elements(alloc, &of, len)?,
            kind: ObjKind::Array(of),
            text: Seq::new(alloc),
            items: Seq::new(alloc),
        };
        let number = add(&mut self.objects, object)?;
        self.words = words;
        Ok(number)
    }

    /// Makes a `java/lang/String` of these UTF-16 code units. It takes two words, and one for each
    /// unit.
    pub fn text(&mut self, units: &Name) -> Result<u32, HeapFault>
        ensures number { IfOk result (λ number. number ≡ next_number self.old) }
        ensures heap { OnOk result (self.new ≡ with_new_text self.old units.now) }
        ensures full { (result ≡ Err HeapFault.Full) ↔ IsPassedBy self.old (text_words units.now) }
        ensures err { OnErr result (self.new ≡ self.old) }
    {
        let words = words_with(self.words, self.limit, 2, units.len())?;
        let object = Object {
            kind: ObjKind::Text,
            values: Seq::new(*self.objects.allocator()),
            text: units.copy()?,
            items: Seq::new(*self.objects.allocator()),
        };
        let number = add(&mut self.objects, object)?;
        self.words = words;
        Ok(number)
    }

    /// Adds an object that takes one word and so many more. Where these are past the limit, or
    /// memory runs out, nothing has changed.
    pub fn add(&mut self, object: Object, more: u64) -> Result<u32, HeapFault>
        ensures number { IfOk result (λ number. number ≡ next_number self.old) }
        ensures heap { OnOk result (self.new ≡ with_object self.old object (1 + more)) }
        ensures fits { OnOk result (fits_with self.old (1 + more) ≡ true) }
        ensures full { IfErr result (λ fault. IsFullWhere fault (fits_with self.old (1 + more))) }
        ensures err { OnErr result (self.new ≡ self.old) }
    {
        let words = words_with(self.words, self.limit, 1, more as usize)?;
        let number = add(&mut self.objects, object)?;
        self.words = words;
        Ok(number)
    }

    /// The object of this number takes so many words more, as a text builder does. Nothing else
    /// changes.
    pub fn grow_by(&mut self, at: u32, words: u64) -> Result<(), HeapFault>
        requires { IsSome (object_at self.old at) }
        ensures heap { OnOk result (self.new ≡ with_words self.old words) }
        ensures fits { OnOk result (fits_with self.old words ≡ true) }
        ensures full { IfErr result (λ fault. IsFullPast fault (fits_with self.old words)) }
        ensures err { OnErr result (self.new ≡ self.old) }
    {
        self.words = words_with(self.words, self.limit, 0, words as usize)?;
        Ok(())
    }

    /// All objects, that of number 1 first.
    pub fn objects(&self) -> &[Object]
        ensures { result.now ≡ self.now.objects }
    {
        self.objects.as_slice()
    }

    /// How many objects there are.
    pub fn count(&self) -> u32
        ensures count { result ≡ length self.now.objects }
        ensures few { result ≤ self.now.used }
    {
        count_within(self.objects.len(), self.words)
    }

    /// The object of this number, if there is one.
    pub fn get(&self, at: u32) -> Option<&Object>
        ensures { option_copied result ≡ object_at self.now at }
    {
        let place = at.checked_sub(1)?;
        self.objects.get(place as usize)
    }

    /// Puts a value into a slot of the object of this number. It is false, and nothing changes,
    /// where there is no such object or slot.
    pub fn set(&mut self, at: u32, slot: u32, v: Value) -> bool
        ensures there { IsTrue result ↔ HasSlot self.old at slot }
        ensures set { OnTrue result (SetsSlot self.old self.new at slot v) }
        ensures absent { OnFalse result (self.new ≡ self.old) }
    {
        let Some(place) = at.checked_sub(1) else {
            return false;
        };
        put(&mut self.objects, place as usize, slot as usize, v)
    }

    /// Exchanges the object of this number with another one, and leaves the words as they are. It
    /// is false, and nothing changes, where there is no such object.
    pub fn exchange(&mut self, at: u32, with: &mut Object) -> bool
        ensures there { IsTrue result ↔ IsSome (object_at self.old at) }
        ensures heap { OnTrue result (self.new ≡ with_object_at self.old at with.old) }
        ensures with { OnTrue result (object_at self.old at ≡ Some with.new) }
        ensures absent { OnFalse result (self.new ≡ self.old) }
        ensures absent_with { OnFalse result (with.new ≡ with.old) }
    {
        let Some(place) = at.checked_sub(1) else {
            return false;
        };
        swap_with(&mut self.objects, place as usize, with)
    }

    /// The words that were used.
    pub fn words(&self) -> u32
        ensures { result ≡ self.now.used }
    {
        self.words
    }
}

// The words in use with so many more, where the limit allows them.
fn words_with(used: u32, limit: u32, header: u32, units: usize) -> Result<u32, HeapFault>
    requires { used ≤ limit }
    ensures sum { IfOk result (λ words. words ≡ used + (header + units)) }
    ensures fits { OnOk result (used + (header + units) ≤ limit) }
    ensures full { OnErr result (limit < used + (header + units)) }
    ensures only_full { IsOkUnless result HeapFault.Full }
{
    let left = (limit - used) as usize;
    if left < header as usize || left - (header as usize) < units {
        return Err(HeapFault::Full);
    }
    Ok(used + header + units as u32)
}

// A count that is no more than the words.
fn count_within(count: usize, words: u32) -> u32
    requires { count ≤ words }
    ensures { result ≡ count }
{
    let _ = words;
    count as u32
}

// Adds an object, and gives its number.
fn add(objects: &mut Vec<Object>, object: Object) -> Result<u32, HeapFault>
    requires { length objects.old.items + 1 < 2 ^ 32 }
    ensures number { IfOk result (λ number. number ≡ length objects.old.items + 1) }
    ensures added { OnOk result (objects.new.items ≡ objects.old.items ++ object ∷ []) }
    ensures err { OnErr result (objects.new.items ≡ objects.old.items) }
    ensures only_memory { IsOkUnless result HeapFault.Memory }
{
    objects.push(object)?;
    Ok(objects.len() as u32)
}

// Puts a value into a slot of the object at a place, if there is one.
fn put(objects: &mut [Object], place: usize, slot: usize, v: Value) -> bool
    ensures there { IsTrue result ↔ HasSlotAt objects.old place slot }
    ensures put { OnTrue result (SetsSlotAt objects.old objects.new place slot v) }
    ensures absent { OnFalse result (objects.new ≡ objects.old) }
{
    if place >= objects.len() || slot >= objects[place].values.len() {
        return false;
    }
    let object = &mut objects[place];
    let empty = object.values.empty();
    let mut values = mem::replace(&mut object.values, empty).into_vec();
    values[slot] = v;
    object.values = Seq::from_vec(values);
    true
}

// Exchanges the object at a place with another one, if there is one.
fn swap_with(objects: &mut [Object], place: usize, with: &mut Object) -> bool
    ensures there { IsTrue result ↔ IsSome (slice_get objects.old place) }
    ensures objects { OnTrue result (objects.new ≡ slice_set objects.old place with.old) }
    ensures with { OnTrue result (slice_get objects.old place ≡ Some with.new) }
    ensures absent { OnFalse result (objects.new ≡ objects.old) }
    ensures absent_with { OnFalse result (with.new ≡ with.old) }
{
    if place >= objects.len() {
        return false;
    }
    mem::swap(&mut objects[place], with);
    true
}
