//! Laws on the definitions.

ghost use Rattle.mutant_apply.specs.BytesLaws.{LayoutIsSpliced, PartsAreOfApplied};

/// The layout of a class with parts that an edit makes anew is a splice of the bytes of the class.
pub fn layout_is_spliced()
    ensures { LayoutIsSpliced }
{}

/// The parts and bytes that `parts_and_bytes` gives are those of what `apply` gives.
pub fn parts_are_of_applied()
    ensures { PartsAreOfApplied }
{}
