//! What the machine has allocated.

use class_model::{ClassId, Kind, Name, Seq};
use program_rules::Value;

/// What an array's elements are.
pub type ArrayKind = Kind;

/// What an object is.
#[derive(Drop)]
pub enum ObjKind {
    /// An instance of a class.
    Plain(ClassId),
    /// An array of such elements.
    Array(ArrayKind),
    /// A `java/lang/String`. The heap knows no class numbers, so its kind says so.
    Text,
}

/// An object of the heap (JVMS 2.4, 2.7).
#[derive(Drop)]
pub struct Object {
    pub kind: ObjKind,
    /// The fields, those of the highest superclass first, or an array's elements.
    pub values: Seq<Value>,
    /// The UTF-16 code units that a native class keeps in the object.
    pub text: Name,
    /// The values that a native class keeps in the object: the elements of a list, the entries of a
    /// map, the number of a box.
    pub items: Seq<Value>,
}
