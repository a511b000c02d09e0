//! Laws of the type rules: a class with other code of one method is judged by this method alone.
#![tactic(auto)]

ghost use Rattle.std.specs.Prelude.{◌≡◌, Some, false, codes};
ghost use Rattle.type_rules.specs.Rules.{ClassAccepted};
ghost use Rattle.type_laws.specs.Alike.{HeadsAlike};
ghost use Rattle.type_laws.specs.Witness.{small_program, edited_program};
ghost use Rattle.method_laws.specs.Witness.{class_a, edited_a};
ghost use Rattle.method_laws.specs.Methods.{DiffersAt, MethodsKeepFaults, MethodsStayFirst, EditsAreJudgedByMethod};

use type_laws::edit_law_is_of_use;

/// Where a class gets other code of one method, every other method keeps its fault, or has none as
/// before.
pub fn other_methods_keep_their_faults()
    ensures { MethodsKeepFaults }
{}

/// The method with other code stays the first of its name and descriptor, where the class was
/// accepted.
pub fn edited_methods_stay_first()
    ensures { MethodsStayFirst }
{}

/// A class that is accepted is accepted with other code of one method exactly where this method is.
pub fn an_edit_is_judged_by_its_method()
    ensures { EditsAreJudgedByMethod }
{}

/// A program, and the same with other code of one method, meet all that the last law asks.
pub fn method_law_is_of_use()
    ensures heads { HeadsAlike small_program edited_program }
    ensures before { small_program (codes "A") ≡ Some class_a }
    ensures after { edited_program (codes "A") ≡ Some edited_a }
    ensures file { class_a.library ≡ false }
    ensures differs { DiffersAt 0 class_a edited_a }
    ensures accepted { ClassAccepted small_program (codes "A") }
{
    edit_law_is_of_use();
}
