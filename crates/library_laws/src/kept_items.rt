//! Laws of native methods that keep items in objects: what each does fits its descriptor.

ghost use Rattle.program_rules.specs.Programs.{Look};
ghost use Rattle.lib_table.specs.Collected.{collections};
ghost use Rattle.library_laws.specs.KeepingHosts.{IsKeepingHost};
ghost use Rattle.library_laws.specs.Fits.{AllFit};
ghost use Rattle.library_laws.specs.Fitting.{keeping_objects};

/// In a program whose classes keep what natives ask of them, each native method of the collections,
/// of Enum and of Optional does a deed that fits its descriptor.
pub fn natives_that_keep_items_fit()
    ensures collections { (p : Look) → IsKeepingHost p → AllFit p collections }
    ensures objects { (p : Look) → IsKeepingHost p → AllFit p keeping_objects }
{}
