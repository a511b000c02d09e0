//! Laws of programs whose supers are as they have to be, over the definitions alone.

ghost use Rattle.program_laws.specs.Ordered.{OrderedIsBuilt};
ghost use Rattle.program_laws.specs.Walks.{TopsAreObject, WalksLeadOn, NoneIsPassed, SearchesAgree, FirstsAreFound, OrderedHasLayout};

/// A program whose supers are there, of the right kind and in an order is built as accepted code
/// asks: what stands above a class is closed and there, above an interface stand interfaces and
/// Object, and above Object nothing.
pub fn ordered_is_built()
    ensures { OrderedIsBuilt }
{}

/// The highest class above each that is there is Object.
pub fn tops_are_object()
    ensures { TopsAreObject }
{}

/// The walk up from a class leads to each class above it that is no interface: it passes classes
/// below that one, and goes on as that one's walk.
pub fn walks_lead_on()
    ensures { WalksLeadOn }
{}

/// A test that only one class meets, of itself and all below it, no class meets that a walk passes
/// before it leads there.
pub fn none_is_passed()
    ensures { NoneIsPassed }
{}

/// A search that finds the same behind each class below another one finds from each of these what
/// it finds from that one.
pub fn searches_agree<X>()
    ensures { SearchesAgree X }
{}

/// The value that only one class has, of itself and all below it, is found first from each class
/// below it.
pub fn firsts_are_found<X>()
    ensures { FirstsAreFound X }
{}

/// Fields are laid out alike in all classes below the one that declares them, where Object has
/// none.
pub fn ordered_has_layout()
    ensures { OrderedHasLayout }
{}
