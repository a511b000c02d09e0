//! Laws of the library's native methods: what each does fits its descriptor. Those of classes that
//! keep references aren't here.

ghost use Rattle.library_laws.specs.Natives.{OthersFit};

/// Each native method of the library does what fits its descriptor, on each heap that fits and for
/// all arguments that do, but for those of the nine classes that keep references or make what does.
#[tactic(auto, using(crate::proofs::Listed::natives_fit))]
pub fn natives_fit()
    ensures { OthersFit }
{}
