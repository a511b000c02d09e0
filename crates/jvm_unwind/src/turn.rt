//! What a step comes to that may change which frames there are.

ghost use Rattle.std.specs.Prelude.{◌≡◌, None, IfSome, IfNone};
ghost use Rattle.jvm_unwind.specs.declared.turn.Turn.TheVariants as turn;

/// What a step comes to.
#[derive(Clone, Copy)]
pub enum Turn {
    /// No row applies, and all is as it was.
    NoRow,
    /// The frames go on, or the run is over.
    Goes,
    /// The object of this number is thrown in the frames that are left.
    Throws(u32),
}

impl Turn {
    /// The frames go on with this object thrown, if one is.
    pub fn of(thrown: Option<u32>) -> Turn
        ensures some { IfSome thrown (λ x. result ≡ turn.Throws x) }
        ensures none { IfNone thrown (result ≡ turn.Goes) }
    {
        match thrown {
            Some(x) => Turn::Throws(x),
            None => Turn::Goes,
        }
    }
}
