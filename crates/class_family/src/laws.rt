//! Laws of searches: over each class once they find what they find over the whole walk.

ghost use Rattle.class_family.specs.Laws.{NodesAreAlike, FieldsOnce, MethodsOnce, CandidatesOnce};
ghost use Rattle.class_family.specs.Laws.{BeginsOnce};

/// A class has the same outline and the same classes above it in each walk.
pub fn nodes_are_alike()
    ensures { NodesAreAlike }
{}

/// Fields are found over each class once.
pub fn fields_once()
    ensures { FieldsOnce }
{}

/// So are methods of a class and its superclasses.
pub fn methods_once()
    ensures { MethodsOnce }
{}

/// So are the methods of superinterfaces among which the maximally-specific one is.
pub fn candidates_once()
    ensures { CandidatesOnce }
{}

/// So is the first class that has to be initialised.
pub fn begins_once()
    ensures { BeginsOnce }
{}
