//! The native methods by name and by number. Classes whose methods mean the same share them.

/// A native method of the library, by the package of its class.
#[derive(Clone, Copy)]
pub enum Native {
    Lang(LangNative),
    Util(UtilNative),
    Junit(AssertionNative),
}

/// One of `java/lang`, or of `java/util/Optional`.
#[derive(Clone, Copy)]
pub enum LangNative {
    Object(ObjectNative),
    Throwable(ThrowableNative),
    Optional(OptionalNative),
    Text(TextNative),
    Builder(BuilderNative),
    Box(BoxNative),
    Order(OrderNative),
    Number(NumberNative),
}

/// One of `java/util` or of `mt`.
#[derive(Clone, Copy)]
pub enum UtilNative {
    List(ListNative),
    Entry(EntryNative),
    Iterator(IteratorNative),
}

/// Object, Class, Enum, and what several classes have from Object.
#[derive(Clone, Copy)]
pub enum ObjectNative {
    /// An `<init>` that keeps nothing, and `Throwable.addSuppressed`.
    DoNothing,
    SameObject,
    AllocationNumber,
    ObjectText,
    NameOfClass,
    AssertionStatus,
    EnumInit,
    EnumName,
    EnumOrdinal,
    CompareEnum,
    ClassOf,
    CompareAny,
}

#[derive(Clone, Copy)]
pub enum ThrowableNative {
    Message,
    Cause,
    SetMessage,
    SetCause,
    SetMessageAndCause,
}

#[derive(Clone, Copy)]
pub enum OptionalNative {
    Empty,
    Of,
    OfNullable,
    IsPresent,
    Value,
    OrElse,
}

/// String.
#[derive(Clone, Copy)]
pub enum TextNative {
    Length,
    IsEmpty,
    CharAt,
    Equals,
    Hash,
    Compare,
    CompareAny,
    Concat,
    SubstringFrom,
    Substring,
    IndexOfChar,
    IndexOfText,
    StartsWith,
    EndsWith,
    Itself,
    OfInt,
    OfLong,
    OfChar,
    OfBool,
    Chars,
}

/// StringBuilder.
#[derive(Clone, Copy)]
pub enum BuilderNative {
    OfCapacity,
    OfText,
    AppendText,
    AppendInt,
    AppendLong,
    AppendChar,
    AppendBool,
    ToText,
}

/// What Integer, Long, Short, Byte, Character and Boolean make, give and write.
#[derive(Clone, Copy)]
pub enum BoxNative {
    OfInt,
    OfLong,
    OfShort,
    OfByte,
    OfChar,
    OfBool,
    IntValue,
    IntAsLong,
    LongValue,
    LongAsInt,
    LongHash,
    BoolHash,
    IntText,
    LongText,
    CharText,
    BoolText,
}

/// How boxes and plain numbers are compared.
#[derive(Clone, Copy)]
pub enum OrderNative {
    IntEquals,
    LongEquals,
    ShortEquals,
    ByteEquals,
    CharEquals,
    BoolEquals,
    CompareBox,
    CompareLongBox,
    SubtractBox,
    CompareInts,
    CompareLongs,
}

/// Math, and what is asked of plain ints and chars.
#[derive(Clone, Copy)]
pub enum NumberNative {
    ParseInt,
    IsDigit,
    IsLetter,
    AbsInt,
    AbsLong,
    MaxInt,
    MaxLong,
    MinInt,
    MinLong,
    FloorMod,
}

/// ArrayList, and what HashMap and HashSet have in common with it.
#[derive(Clone, Copy)]
pub enum ListNative {
    OfCapacity,
    Size,
    IsEmpty,
    Clear,
    Get,
    Set,
    Add,
    Insert,
    Remove,
    Unsupported,
}

/// mt/Hashed, HashMap and HashSet.
#[derive(Clone, Copy)]
pub enum EntryNative {
    Count,
    Hash,
    Key,
    Value,
    SetValue,
    Add,
    Cut,
    KeySet,
    ValueList,
}

/// mt/Iter, and what makes collections.
#[derive(Clone, Copy)]
pub enum IteratorNative {
    OfList,
    OfSet,
    HasNext,
    Next,
    EmptyList,
    EmptySet,
    AsList,
}

/// org/junit/Assert and org/junit/jupiter/api/Assertions.
#[derive(Clone, Copy)]
pub enum AssertionNative {
    EqualInts,
    EqualLongs,
    True,
    False,
    Null,
    NotNull,
    Same,
    NotSame,
    Fail,
}

/// The native methods by their numbers.
pub const NATIVES: [Native; 123] = [
    Native::Lang(LangNative::Object(ObjectNative::DoNothing)),
    Native::Lang(LangNative::Object(ObjectNative::SameObject)),
    Native::Lang(LangNative::Object(ObjectNative::AllocationNumber)),
    Native::Lang(LangNative::Object(ObjectNative::ObjectText)),
    Native::Lang(LangNative::Object(ObjectNative::NameOfClass)),
    Native::Lang(LangNative::Object(ObjectNative::AssertionStatus)),
    Native::Lang(LangNative::Object(ObjectNative::EnumInit)),
    Native::Lang(LangNative::Object(ObjectNative::EnumName)),
    Native::Lang(LangNative::Object(ObjectNative::EnumOrdinal)),
    Native::Lang(LangNative::Object(ObjectNative::CompareEnum)),
    Native::Lang(LangNative::Object(ObjectNative::ClassOf)),
    Native::Lang(LangNative::Throwable(ThrowableNative::Message)),
    Native::Lang(LangNative::Throwable(ThrowableNative::Cause)),
    Native::Lang(LangNative::Throwable(ThrowableNative::SetMessage)),
    Native::Lang(LangNative::Throwable(ThrowableNative::SetCause)),
    Native::Lang(LangNative::Throwable(ThrowableNative::SetMessageAndCause)),
    Native::Lang(LangNative::Optional(OptionalNative::Empty)),
    Native::Lang(LangNative::Optional(OptionalNative::Of)),
    Native::Lang(LangNative::Optional(OptionalNative::OfNullable)),
    Native::Lang(LangNative::Optional(OptionalNative::IsPresent)),
    Native::Lang(LangNative::Optional(OptionalNative::Value)),
    Native::Lang(LangNative::Optional(OptionalNative::OrElse)),
    Native::Lang(LangNative::Text(TextNative::Length)),
    Native::Lang(LangNative::Text(TextNative::IsEmpty)),
    Native::Lang(LangNative::Text(TextNative::CharAt)),
    Native::Lang(LangNative::Text(TextNative::Equals)),
    Native::Lang(LangNative::Text(TextNative::Hash)),
    Native::Lang(LangNative::Text(TextNative::Compare)),
    Native::Lang(LangNative::Text(TextNative::CompareAny)),
    Native::Lang(LangNative::Text(TextNative::Concat)),
    Native::Lang(LangNative::Text(TextNative::SubstringFrom)),
    Native::Lang(LangNative::Text(TextNative::Substring)),
    Native::Lang(LangNative::Text(TextNative::IndexOfChar)),
    Native::Lang(LangNative::Text(TextNative::IndexOfText)),
    Native::Lang(LangNative::Text(TextNative::StartsWith)),
    Native::Lang(LangNative::Text(TextNative::EndsWith)),
    Native::Lang(LangNative::Text(TextNative::Itself)),
    Native::Lang(LangNative::Text(TextNative::OfInt)),
    Native::Lang(LangNative::Text(TextNative::OfLong)),
    Native::Lang(LangNative::Text(TextNative::OfChar)),
    Native::Lang(LangNative::Text(TextNative::OfBool)),
    Native::Lang(LangNative::Builder(BuilderNative::OfCapacity)),
    Native::Lang(LangNative::Builder(BuilderNative::OfText)),
    Native::Lang(LangNative::Builder(BuilderNative::AppendText)),
    Native::Lang(LangNative::Builder(BuilderNative::AppendInt)),
    Native::Lang(LangNative::Builder(BuilderNative::AppendLong)),
    Native::Lang(LangNative::Builder(BuilderNative::AppendChar)),
    Native::Lang(LangNative::Builder(BuilderNative::AppendBool)),
    Native::Lang(LangNative::Builder(BuilderNative::ToText)),
    Native::Lang(LangNative::Box(BoxNative::OfInt)),
    Native::Lang(LangNative::Box(BoxNative::OfLong)),
    Native::Lang(LangNative::Box(BoxNative::OfShort)),
    Native::Lang(LangNative::Box(BoxNative::OfByte)),
    Native::Lang(LangNative::Box(BoxNative::OfChar)),
    Native::Lang(LangNative::Box(BoxNative::OfBool)),
    Native::Lang(LangNative::Box(BoxNative::IntValue)),
    Native::Lang(LangNative::Box(BoxNative::IntAsLong)),
    Native::Lang(LangNative::Box(BoxNative::LongValue)),
    Native::Lang(LangNative::Box(BoxNative::LongAsInt)),
    Native::Lang(LangNative::Box(BoxNative::LongHash)),
    Native::Lang(LangNative::Box(BoxNative::BoolHash)),
    Native::Lang(LangNative::Box(BoxNative::IntText)),
    Native::Lang(LangNative::Box(BoxNative::LongText)),
    Native::Lang(LangNative::Box(BoxNative::CharText)),
    Native::Lang(LangNative::Box(BoxNative::BoolText)),
    Native::Lang(LangNative::Order(OrderNative::IntEquals)),
    Native::Lang(LangNative::Order(OrderNative::LongEquals)),
    Native::Lang(LangNative::Order(OrderNative::ShortEquals)),
    Native::Lang(LangNative::Order(OrderNative::ByteEquals)),
    Native::Lang(LangNative::Order(OrderNative::CharEquals)),
    Native::Lang(LangNative::Order(OrderNative::BoolEquals)),
    Native::Lang(LangNative::Order(OrderNative::CompareBox)),
    Native::Lang(LangNative::Order(OrderNative::CompareLongBox)),
    Native::Lang(LangNative::Order(OrderNative::SubtractBox)),
    Native::Lang(LangNative::Order(OrderNative::CompareInts)),
    Native::Lang(LangNative::Order(OrderNative::CompareLongs)),
    Native::Lang(LangNative::Number(NumberNative::ParseInt)),
    Native::Lang(LangNative::Number(NumberNative::IsDigit)),
    Native::Lang(LangNative::Number(NumberNative::IsLetter)),
    Native::Lang(LangNative::Number(NumberNative::AbsInt)),
    Native::Lang(LangNative::Number(NumberNative::AbsLong)),
    Native::Lang(LangNative::Number(NumberNative::MaxInt)),
    Native::Lang(LangNative::Number(NumberNative::MaxLong)),
    Native::Lang(LangNative::Number(NumberNative::MinInt)),
    Native::Lang(LangNative::Number(NumberNative::MinLong)),
    Native::Lang(LangNative::Number(NumberNative::FloorMod)),
    Native::Util(UtilNative::List(ListNative::OfCapacity)),
    Native::Util(UtilNative::List(ListNative::Size)),
    Native::Util(UtilNative::List(ListNative::IsEmpty)),
    Native::Util(UtilNative::List(ListNative::Clear)),
    Native::Util(UtilNative::List(ListNative::Get)),
    Native::Util(UtilNative::List(ListNative::Set)),
    Native::Util(UtilNative::List(ListNative::Add)),
    Native::Util(UtilNative::List(ListNative::Insert)),
    Native::Util(UtilNative::List(ListNative::Remove)),
    Native::Util(UtilNative::List(ListNative::Unsupported)),
    Native::Util(UtilNative::Entry(EntryNative::Count)),
    Native::Util(UtilNative::Entry(EntryNative::Hash)),
    Native::Util(UtilNative::Entry(EntryNative::Key)),
    Native::Util(UtilNative::Entry(EntryNative::Value)),
    Native::Util(UtilNative::Entry(EntryNative::SetValue)),
    Native::Util(UtilNative::Entry(EntryNative::Add)),
    Native::Util(UtilNative::Entry(EntryNative::Cut)),
    Native::Util(UtilNative::Entry(EntryNative::KeySet)),
    Native::Util(UtilNative::Entry(EntryNative::ValueList)),
    Native::Util(UtilNative::Iterator(IteratorNative::OfList)),
    Native::Util(UtilNative::Iterator(IteratorNative::OfSet)),
    Native::Util(UtilNative::Iterator(IteratorNative::HasNext)),
    Native::Util(UtilNative::Iterator(IteratorNative::Next)),
    Native::Util(UtilNative::Iterator(IteratorNative::EmptyList)),
    Native::Util(UtilNative::Iterator(IteratorNative::EmptySet)),
    Native::Util(UtilNative::Iterator(IteratorNative::AsList)),
    Native::Junit(AssertionNative::EqualInts),
    Native::Junit(AssertionNative::EqualLongs),
    Native::Junit(AssertionNative::True),
    Native::Junit(AssertionNative::False),
    Native::Junit(AssertionNative::Null),
    Native::Junit(AssertionNative::NotNull),
    Native::Junit(AssertionNative::Same),
    Native::Junit(AssertionNative::NotSame),
    Native::Junit(AssertionNative::Fail),
    Native::Lang(LangNative::Object(ObjectNative::CompareAny)),
    Native::Lang(LangNative::Text(TextNative::Chars)),
];
