//! The text of a history: which lists of records have one, and how it is read, item by item, up to
//! the first fault.
//!
//! The definitions are in `specs/`. The laws say that reading and spelling undo each other.
#![tactic(auto)]

ghost use Rattle.history_rules.specs.Laws.{RecordsAreReadAsSpelled, BytesTellRecords};
ghost use Rattle.history_rules.specs.Laws.{HistoriesAreReadAsSpelled, WrittenIsRead};
ghost use Rattle.std.specs.Prelude.{◌≡◌};
ghost use Rattle.history_rules.specs.Worked.{places_with, places_cut, told_high_0, told_high_1};
ghost use Rattle.history_rules.specs.Worked.{told_high_2, told_high_3, told_high_4, told_low_0};
ghost use Rattle.history_rules.specs.Worked.{told_low_1, told_low_2, told_low_3, told_low_4};
ghost use Rattle.history_rules.specs.Worked.{told_cut_0, told_cut_1, told_cut_2, told_cut_3};
ghost use Rattle.history_rules.specs.Worked.{told_cut_4};

mod fault;

pub use fault::HistoryFault;

/// Under a list of different classes a record is read exactly where it is spelled, in both
/// versions, whatever comes behind it.
pub fn records_are_read_as_spelled()
    ensures { RecordsAreReadAsSpelled }
{}

/// Records of one history are equal exactly where their bytes in the file are, so that whether
/// records differ is asked of slices of the file.
pub fn bytes_tell_records()
    ensures { BytesTellRecords }
{}

/// A history is read exactly where it is spelled: what is read was spelled so, and what is spelled
/// is read as that.
pub fn histories_are_read_as_spelled()
    ensures { HistoriesAreReadAsSpelled }
{}

/// The text of records that have the form of a history and differ is a history, and is read as
/// these records.
pub fn written_is_read()
    ensures { WrittenIsRead }
{}

/// A history of two records is read, and told at the places that an independent reader told, with
/// each byte 255 or 0, and cut behind each byte.
pub fn damaged_histories_are_told()
    ensures high_0 { places_with 255 31 0 ≡ told_high_0 }
    ensures high_1 { places_with 255 31 31 ≡ told_high_1 }
    ensures high_2 { places_with 255 31 62 ≡ told_high_2 }
    ensures high_3 { places_with 255 31 93 ≡ told_high_3 }
    ensures high_4 { places_with 255 31 124 ≡ told_high_4 }
    ensures low_0 { places_with 0 31 0 ≡ told_low_0 }
    ensures low_1 { places_with 0 31 31 ≡ told_low_1 }
    ensures low_2 { places_with 0 31 62 ≡ told_low_2 }
    ensures low_3 { places_with 0 31 93 ≡ told_low_3 }
    ensures low_4 { places_with 0 31 124 ≡ told_low_4 }
    ensures cut_0 { places_cut 32 0 ≡ told_cut_0 }
    ensures cut_1 { places_cut 32 32 ≡ told_cut_1 }
    ensures cut_2 { places_cut 32 64 ≡ told_cut_2 }
    ensures cut_3 { places_cut 32 96 ≡ told_cut_3 }
    ensures cut_4 { places_cut 28 128 ≡ told_cut_4 }
{}
