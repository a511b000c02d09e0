//! The fields that a class declares for its instances (JVMS 2.4).

ghost use Rattle.std.specs.Prelude.{◌≡◌, ◌≤◌, ◌++◌, ◌∷◌, [], length, map, reverse, OnOk};
ghost use Rattle.class_link.specs.View.{field_of};
ghost use Rattle.jvm_layout.specs.Layouts.{own_values};

use class_link::LinkedField;
use class_model::flags::is_static;
use class_model::{Kind, Memory};
use jvm_world::default_value;
use program_rules::Value;

/// Adds the defaults of the fields that aren't static, the last field's first.
#[tactic(auto, using(crate::proofs::Climbing::own_front))]
pub fn push_defaults(
    fields: &[LinkedField],
    all_static: bool,
    values: &mut Vec<Value>,
) -> Result<(), Memory>
    ensures { OnOk result (values.new.items
        ≡ values.old.items ++ reverse (own_values all_static (map field_of fields.now))) }
{
    let mut left = fields.len();
    while left > 0 {
        left -= 1;
        push_default(&fields[left], all_static, values)?;
    }
    Ok(())
}

// Adds the default of a field that isn't static.
fn push_default(
    field: &LinkedField,
    all_static: bool,
    values: &mut Vec<Value>,
) -> Result<(), Memory>
    ensures { OnOk result (values.new.items
        ≡ values.old.items ++ own_values all_static (field_of field.now ∷ [])) }
{
    if all_static || is_static(field.flags) {
        return Ok(());
    }
    values.push(default_value(&field.kind))?;
    Ok(())
}

// Whether a field is an instance's, as a number.
fn count_one(field: &LinkedField, all_static: bool) -> usize
    ensures count { result ≡ length (own_values all_static (field_of field.now ∷ [])) }
    ensures few { result ≤ 1 }
{
    if all_static || is_static(field.flags) {
        return 0;
    }
    1
}

/// How many of these fields aren't static.
#[tactic(auto, using(crate::proofs::SlotCounts::count_front))]
pub fn count_own(fields: &[LinkedField], all_static: bool) -> usize
    ensures { result ≡ length (own_values all_static (map field_of fields.now)) }
{
    let mut count = 0;
    let mut left = fields.len();
    while left > 0 {
        left -= 1;
        let one = count_one(&fields[left], all_static);
        count += one;
    }
    count
}
