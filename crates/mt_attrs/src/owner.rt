/// Whose attributes they are.
#[derive(Clone, Copy)]
pub enum Owner {
    OfClass,
    OfField,
    OfMethod,
}
