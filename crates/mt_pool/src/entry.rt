//! Reading the entries.

ghost use Rattle.std.specs.Prelude.{◌≡◌, false};
ghost use Rattle.class_model.specs.Pool.{is_wide};
ghost use Rattle.class_model.specs.declared.constant.Const.TheVariants as const;
ghost use Rattle.class_model.specs.declared.fault.ClassFault.TheVariants as fault;
ghost use Rattle.codec_rules.specs.Meets.{Gives};
ghost use Rattle.mt_bytes.specs.Items.{ReadsItem};
ghost use Rattle.mt_pool.specs.Reading.{units_or, text_at, integer_at, float_at, u8_at, long_at, double_at, one_at, two_at, is_handle_kind, handle_kind_at, handle_at, entry_at, place_at, places_at};

use class_model::{ClassFault, Const, Name, Seq, TextFault, read_text as read_units};
use mt_bytes::Cursor;
use std::alloc::Global;

/// The code units of a text whose entry begins at a place.
fn units_of(alloc: Global, at: u64, bytes: &[u8]) -> Result<Name, ClassFault>
    ensures { Gives fault.Memory (λ units. units) (units_or at bytes.now) result }
{
    match read_units(alloc, bytes) {
        Ok(units) => Ok(units),
        Err(TextFault::BadText { .. }) => Err(ClassFault::BadText { at }),
        Err(TextFault::Memory) => Err(ClassFault::Memory),
    }
}

#[tactic(auto, unfolding(crate::specs::Reading::text_at))]
fn read_text(alloc: Global, at: u64, cur: &mut Cursor) -> Result<Const, ClassFault>
    ensures { ReadsItem (text_at at) cur.old cur.new result }
{
    let len = cur.u2()?;
    let bytes = cur.take(u32::from(len))?;
    let units = units_of(alloc, at, bytes)?;
    Ok(Const::Utf8(units))
}

#[tactic(auto, unfolding(crate::specs::Reading::integer_at))]
fn read_integer(cur: &mut Cursor) -> Result<Const, ClassFault>
    ensures { ReadsItem integer_at cur.old cur.new result }
{
    let value = cur.u4()?;
    Ok(Const::Integer(value.cast_signed()))
}

#[tactic(auto, unfolding(crate::specs::Reading::float_at))]
fn read_float(cur: &mut Cursor) -> Result<Const, ClassFault>
    ensures { ReadsItem float_at cur.old cur.new result }
{
    let bits = cur.u4()?;
    Ok(Const::Float(bits))
}

/// A number of eight bytes, which is two items of four.
#[tactic(auto, unfolding(crate::specs::Reading::u8_at))]
fn read_two_halves(cur: &mut Cursor) -> Result<u64, ClassFault>
    ensures { ReadsItem u8_at cur.old cur.new result }
{
    let high = cur.u4()?;
    let low = cur.u4()?;
    Ok(u64::from(high) * 0x1_0000_0000 + u64::from(low))
}

#[tactic(auto, unfolding(crate::specs::Reading::long_at))]
fn read_long(cur: &mut Cursor) -> Result<Const, ClassFault>
    ensures { ReadsItem long_at cur.old cur.new result }
{
    let value = read_two_halves(cur)?;
    Ok(Const::Long(value.cast_signed()))
}

#[tactic(auto, unfolding(crate::specs::Reading::double_at))]
fn read_double(cur: &mut Cursor) -> Result<Const, ClassFault>
    ensures { ReadsItem double_at cur.old cur.new result }
{
    let bits = read_two_halves(cur)?;
    Ok(Const::Double(bits))
}

#[tactic(auto, unfolding(crate::specs::Reading::one_at))]
fn read_class(cur: &mut Cursor) -> Result<Const, ClassFault>
    ensures { ReadsItem (one_at const.Class) cur.old cur.new result }
{
    let name = cur.u2()?;
    Ok(Const::Class(name))
}

#[tactic(auto, unfolding(crate::specs::Reading::one_at))]
fn read_string(cur: &mut Cursor) -> Result<Const, ClassFault>
    ensures { ReadsItem (one_at const.Text) cur.old cur.new result }
{
    let text = cur.u2()?;
    Ok(Const::Text(text))
}

#[tactic(auto, unfolding(crate::specs::Reading::one_at))]
fn read_method_type(cur: &mut Cursor) -> Result<Const, ClassFault>
    ensures { ReadsItem (one_at const.MethodKind) cur.old cur.new result }
{
    let desc = cur.u2()?;
    Ok(Const::MethodKind(desc))
}

#[tactic(auto, unfolding(crate::specs::Reading::two_at))]
fn read_field(cur: &mut Cursor) -> Result<Const, ClassFault>
    ensures { ReadsItem (two_at const.Field) cur.old cur.new result }
{
    let class = cur.u2()?;
    let pair = cur.u2()?;
    Ok(Const::Field(class, pair))
}

#[tactic(auto, unfolding(crate::specs::Reading::two_at))]
fn read_method(cur: &mut Cursor) -> Result<Const, ClassFault>
    ensures { ReadsItem (two_at const.Method) cur.old cur.new result }
{
    let class = cur.u2()?;
    let pair = cur.u2()?;
    Ok(Const::Method(class, pair))
}

#[tactic(auto, unfolding(crate::specs::Reading::two_at))]
fn read_interface_method(cur: &mut Cursor) -> Result<Const, ClassFault>
    ensures { ReadsItem (two_at const.IMethod) cur.old cur.new result }
{
    let class = cur.u2()?;
    let pair = cur.u2()?;
    Ok(Const::IMethod(class, pair))
}

#[tactic(auto, unfolding(crate::specs::Reading::two_at))]
fn read_pair(cur: &mut Cursor) -> Result<Const, ClassFault>
    ensures { ReadsItem (two_at const.Pair) cur.old cur.new result }
{
    let name = cur.u2()?;
    let desc = cur.u2()?;
    Ok(Const::Pair(name, desc))
}

#[tactic(auto, unfolding(crate::specs::Reading::two_at))]
fn read_dynamic(cur: &mut Cursor) -> Result<Const, ClassFault>
    ensures { ReadsItem (two_at const.Dynamic) cur.old cur.new result }
{
    let bootstrap = cur.u2()?;
    let pair = cur.u2()?;
    Ok(Const::Dynamic(bootstrap, pair))
}

/// One of the standard's kinds of method handle.
fn is_handle_kind(kind: u8) -> bool
    ensures { result ≡ is_handle_kind kind }
{
    1 <= kind && kind <= 9
}

#[tactic(auto, unfolding(crate::specs::Reading::handle_kind_at))]
fn read_handle_kind(cur: &mut Cursor) -> Result<u8, ClassFault>
    ensures { ReadsItem handle_kind_at cur.old cur.new result }
{
    let at = cur.at();
    let kind = cur.u1()?;
    if !is_handle_kind(kind) {
        return Err(ClassFault::BadTag { at, tag: kind });
    }
    Ok(kind)
}

#[tactic(auto, unfolding(crate::specs::Reading::handle_at))]
fn read_handle(cur: &mut Cursor) -> Result<Const, ClassFault>
    ensures { ReadsItem handle_at cur.old cur.new result }
{
    let kind = read_handle_kind(cur)?;
    let member = cur.u2()?;
    Ok(Const::Handle(kind, member))
}

/// An entry: its tag, and what stands behind it.
#[tactic(auto, unfolding(crate::specs::Reading::entry_at))]
fn read_entry(alloc: Global, cur: &mut Cursor) -> Result<Const, ClassFault>
    ensures { ReadsItem entry_at cur.old cur.new result }
{
    let at = cur.at();
    let tag = cur.u1()?;
    match tag {
        1 => read_text(alloc, at, cur),
        3 => read_integer(cur),
        4 => read_float(cur),
        5 => read_long(cur),
        6 => read_double(cur),
        7 => read_class(cur),
        8 => read_string(cur),
        9 => read_field(cur),
        10 => read_method(cur),
        11 => read_interface_method(cur),
        12 => read_pair(cur),
        15 => read_handle(cur),
        16 => read_method_type(cur),
        18 => read_dynamic(cur),
        _ => Err(ClassFault::BadTag { at, tag }),
    }
}

/// The entry takes two places.
fn is_wide(entry: &Const) -> bool
    ensures { result ≡ is_wide entry.now }
{
    matches!(entry, Const::Long(_) | Const::Double(_))
}

/// What a place of the pool holds: the entry at the cursor, or `Second` behind an entry that takes
/// two.
#[tactic(auto, unfolding(crate::specs::Reading::place_at))]
fn read_place(
    alloc: Global,
    last: bool,
    second: bool,
    cur: &mut Cursor,
) -> Result<Const, ClassFault>
    ensures { ReadsItem (place_at last second) cur.old cur.new result }
{
    if second {
        return Ok(Const::Second);
    }
    let at = cur.at();
    let entry = read_entry(alloc, cur)?;
    if last && is_wide(&entry) {
        return Err(ClassFault::BadIndex { at });
    }
    Ok(entry)
}

/// So many places.
pub fn read_places(alloc: Global, count: u16, cur: &mut Cursor) -> Result<Seq<Const>, ClassFault>
    ensures { ReadsItem (places_at count false) cur.old cur.new result }
{
    let mut entries = Seq::new(alloc);
    let mut second = false;
    for place in 0..count {
        let last = count - place == 1;
        let entry = read_place(alloc, last, second, cur)?;
        second = is_wide(&entry);
        entries.push(entry)?;
    }
    Ok(entries)
}
