//! What an instruction that resolves a name goes on with, in one step.

ghost use Rattle.jvm_link.specs.Laws.{ClassesResolve, FieldsResolve, MethodsResolve};

/// An instruction that names a class consults it and goes on with what `resolve_class` answers.
pub fn classes_resolve()
    ensures { ClassesResolve }
{}

/// One that names a field goes on with what `resolve_field` answers in that class.
pub fn fields_resolve()
    ensures { FieldsResolve }
{}

/// One that names a method goes on with what `resolve_method` answers in that class.
pub fn methods_resolve()
    ensures { MethodsResolve }
{}
