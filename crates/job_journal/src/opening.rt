//! Why a journal can't be opened.

/// Why a journal can't be opened.
#[derive(Clone, Copy)]
pub enum JournalFault {
    /// The keeper failed to load it, and its count of such faults rose.
    Load,
    /// The keeper failed to complete it, and its count of such faults rose.
    Write,
    /// No journal has this byte's item here. A place is a byte offset in the file, from 0.
    HistoryBad { at: u64 },
    /// Memory has run out.
    Memory,
}
