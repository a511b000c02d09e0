//! The words of library classes beside their fields (this project's own).

ghost use Rattle.std.specs.Prelude.{◌≡◌};
ghost use Rattle.program_rules.specs.Layout.{native_words, words_among};
ghost use Rattle.program_rules.specs.Names.{same};
ghost use Rattle.jvm_layout.specs.Layouts.{number_words};

use class_model::names::is_text;

// Whether a name is a text, asked as the definition does.
fn is_named(name: &[u16], text: &[u8]) -> bool
    ensures { result ≡ same text.now name.now }
{
    is_text(name, text)
}

/// The words that each object of a library class of this name takes beside its fields.
pub fn native_words(name: &[u16]) -> u32
    ensures { result ≡ words_among native_words name.now }
{
    if is_named(name, b"java/lang/String") {
        return 1;
    }
    if is_named(name, b"java/lang/StringBuilder") {
        return 1;
    }
    if is_named(name, b"java/util/ArrayList") {
        return 1;
    }
    if is_named(name, b"mt/Hashed") {
        return 1;
    }
    if is_named(name, b"java/util/Optional") {
        return 1;
    }
    native_numbers(name)
}

// The same of the boxes and the rest.
fn native_numbers(name: &[u16]) -> u32
    ensures { result ≡ words_among number_words name.now }
{
    if is_named(name, b"java/lang/Integer") {
        return 1;
    }
    if is_named(name, b"java/lang/Long") {
        return 1;
    }
    if is_named(name, b"java/lang/Short") {
        return 1;
    }
    if is_named(name, b"java/lang/Byte") {
        return 1;
    }
    if is_named(name, b"java/lang/Character") {
        return 1;
    }
    if is_named(name, b"java/lang/Boolean") {
        return 1;
    }
    if is_named(name, b"java/lang/Class") {
        return 2;
    }
    if is_named(name, b"java/lang/Enum") {
        return 2;
    }
    if is_named(name, b"mt/Iter") {
        return 2;
    }
    0
}
