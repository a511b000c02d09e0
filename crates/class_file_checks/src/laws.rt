//! That the shapes in which the contracts of this layer are stated leave one answer.

ghost use Rattle.class_file_checks.specs.Answers.{OneIsGiven, OneIsRead, OneIsMoved};

/// Two results that `Gives` holds of, of the same meaning, are equal, unless one of them is want of
/// memory. So `read_insns`, `read_class` and the writers have one answer, and so have `parse_field`
/// and `parse_method`, whose clause `exact` says the same in other words.
pub fn one_answer_is_given<F, X, Y>()
    ensures { OneIsGiven F X Y }
{}

/// Two results that `Reads` holds of, of the same reader and input, are equal, unless one of them
/// is want of memory, and where they are no fault they leave the same. So `read_pool` and
/// `read_attrs` have one answer.
pub fn one_answer_is_read<F, X>()
    ensures { OneIsRead F X }
{}

/// Two results that `Moves` holds of, of the same reader and input, are equal, and so is what they
/// leave. So each number that a cursor reads has one answer.
pub fn one_answer_is_moved<X>()
    ensures { OneIsMoved X }
{}
