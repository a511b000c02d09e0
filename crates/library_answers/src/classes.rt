//! The classes of the objects that words name, by number.

use class_model::ClassId;
use lib_core::Known;

/// `java/lang/String`.
pub const TEXT: u32 = 1;
/// `java/util/ArrayList`.
pub const LIST: u32 = 2;
/// `java/util/HashSet`.
pub const SET: u32 = 3;
/// `mt/Iter`.
pub const ITERATOR: u32 = 4;
/// `java/util/Optional`.
pub const OPTIONAL: u32 = 5;
/// `java/lang/Integer`.
pub const INTEGER: u32 = 6;
/// `java/lang/Long`.
pub const LONG: u32 = 7;
/// `java/lang/Short`.
pub const SHORT: u32 = 8;
/// `java/lang/Byte`.
pub const BYTE: u32 = 9;
/// `java/lang/Character`.
pub const CHARACTER: u32 = 10;
/// `java/lang/Boolean`.
pub const BOOLEAN: u32 = 11;
/// `java/lang/Throwable`.
pub const THROWABLE: u32 = 12;
/// The enum of the data.
pub const HUE: u32 = 13;
/// `java/lang/Class`.
pub const CLASS: u32 = 14;

/// The classes of which native methods make objects.
pub const KNOWN: Known = Known {
    text: ClassId(TEXT),
    list: ClassId(LIST),
    set: ClassId(SET),
    iterator: ClassId(ITERATOR),
    optional: ClassId(OPTIONAL),
    integer: ClassId(INTEGER),
    long: ClassId(LONG),
    short: ClassId(SHORT),
    byte: ClassId(BYTE),
    character: ClassId(CHARACTER),
    boolean: ClassId(BOOLEAN),
};

/// The names of the classes by number.
pub const CLASS_NAMES: [&str; 15] = [
    "java/lang/Object",
    "java/lang/String",
    "java/util/ArrayList",
    "java/util/HashSet",
    "mt/Iter",
    "java/util/Optional",
    "java/lang/Integer",
    "java/lang/Long",
    "java/lang/Short",
    "java/lang/Byte",
    "java/lang/Character",
    "java/lang/Boolean",
    "java/lang/Throwable",
    "Hue",
    "java/lang/Class",
];

/// The word for an object of a class.
pub fn word_of(class: ClassId) -> &'static str {
    match class.0 {
        LIST => "List",
        SET => "Set",
        ITERATOR => "Iterator",
        OPTIONAL => "Optional",
        INTEGER => "Integer",
        LONG => "Long",
        SHORT => "Short",
        BYTE => "Byte",
        CHARACTER => "Character",
        BOOLEAN => "Boolean",
        THROWABLE => "Throwable",
        HUE => "Hue",
        CLASS => "Class",
        _ => "Object",
    }
}

/// The number of the native class, or of the enum, that a word names.
pub fn class_of(word: &str) -> Option<u32> {
    match word {
        "List" => Some(LIST),
        "Set" => Some(SET),
        "Optional" => Some(OPTIONAL),
        "Integer" => Some(INTEGER),
        "Long" => Some(LONG),
        "Short" => Some(SHORT),
        "Byte" => Some(BYTE),
        "Character" => Some(CHARACTER),
        "Boolean" => Some(BOOLEAN),
        "Hue" => Some(HUE),
        _ => None,
    }
}
