//! Tests over the whole table, which are computed.

ghost use Rattle.std.specs.Prelude.{◌≡◌, true, map};
ghost use Rattle.library_rules.specs.declared.native.TheConstants.{NATIVES};
ghost use Rattle.library_rules.specs.Places.{number_of};
ghost use Rattle.lib_table.specs.Library.{library};
ghost use Rattle.lib_table.specs.Written.{written_methods};
ghost use Rattle.lib_table.specs.Whole.{is_whole, have_own_names, are_places, are_found};
ghost use Rattle.lib_table.specs.Typed.{are_typed};

/// The superclass and the interfaces of each class are classes of the table.
#[tactic(auto, using(crate::proofs::Tested::whole))]
pub fn classes_have_supers()
    ensures { is_whole library ≡ true }
{}

/// No two classes have one name, and no two methods of a class one name and descriptor.
#[tactic(auto, using(crate::proofs::Tested::distinct))]
pub fn names_differ()
    ensures { have_own_names library ≡ true }
{}

/// The number of each native method is its place among the native methods.
#[tactic(auto, using(crate::proofs::Tested::places))]
pub fn numbers_are_places()
    ensures { are_places 0 (map number_of NATIVES) ≡ true }
{}

/// Each method that a written method calls stands in the class that it names.
#[tactic(auto, using(crate::proofs::Tested::found))]
pub fn written_calls_are_found()
    ensures { are_found library written_methods ≡ true }
{}

/// The stack of each written method has what each instruction needs, is within its limit, and is
/// empty where a jump goes; and each local is one of those that the code has.
#[tactic(auto, using(crate::proofs::Typing::typed))]
pub fn written_methods_are_typed()
    ensures { are_typed written_methods ≡ true }
{}
