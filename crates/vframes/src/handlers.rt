//! A row of an exception table (JVMS 4.7.3).

ghost use Rattle.std.specs.Prelude.{◌≡◌};
ghost use Rattle.vframes.specs.Sweeps.{is_over};

/// A row of an exception table: it covers the instructions from `start` up to but not `end`.
#[derive(Clone, Copy)]
pub struct Handler {
    pub start: u32,
    pub end: u32,
    pub target: u32,
    /// The number of the name of the class that is caught; that of Throwable, where none is named.
    pub caught: usize,
    /// The class is Throwable or stands below it, or is absent.
    pub is_thrown: bool,
}

impl Handler {
    /// Whether it covers an instruction.
    pub fn covers(self, at: u32) -> bool
        ensures { result ≡ is_over at self }
    {
        self.start <= at && at < self.end
    }
}
