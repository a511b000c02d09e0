//! How many bytes a history has.

ghost use Rattle.std.specs.Prelude.{◌≡◌, ◌<◌, ◌*◌, ℕ, List, length, map, All};
ghost use Rattle.std.specs.List.{flat_map};
ghost use Rattle.class_model.specs.Text.{text};
ghost use Rattle.history_rules.specs.Classes.{class_bytes};
ghost use Rattle.history_rules.specs.Spelling.{outcome_content, record_bytes};
ghost use Rattle.history_rules.specs.Entries.{entry_bytes};
ghost use Rattle.history_rules.specs.Histories.{contents_bytes, told_length};
ghost use Rattle.history_file.specs.Rows.{name_of, outcome_of, record_of, IsEnd, IsRow};
ghost use Rattle.history_file.specs.Reading.{entries_of};
ghost use Rattle.history_file.specs.Writing.{AreNames, AreTextEntries, records_in, contents_under};

use crate::row::{End, Entry, Row};

fn text_len(texts: &[&[u8]], name: u32) -> u64
    requires names { AreNames (map (λ s. s.now) texts.now) }
    requires there { name < length (map (λ s. s.now) texts.now) }
    ensures { result ≡ length (text (name_of (map (λ s. s.now) texts.now) name)) }
{
    texts[name as usize].len() as u64
}

// The bytes of why a test failed.
fn end_len(texts: &[&[u8]], end: End) -> u64
    requires names { AreNames (map (λ s. s.now) texts.now) }
    requires there { IsEnd (length (map (λ s. s.now) texts.now)) end }
    ensures { result
        ≡ told_length (length (outcome_content 2 (outcome_of (map (λ s. s.now) texts.now) end))) }
{
    match end {
        End::Returned => 1,
        End::Thrown(name) => text_len(texts, name).saturating_add(3),
        End::Passed => 0,
        End::TimedOut => 0,
        End::MemoryOut => 0,
    }
}

fn entries_len(texts: &[&[u8]], entries: &[Entry]) -> u64
    requires names { AreNames (map (λ s. s.now) texts.now) }
    requires there { AreTextEntries (length (map (λ s. s.now) texts.now)) entries.now }
    ensures { (classes pool : List (List ℕ)) → result ≡ told_length (length (flat_map
        (entry_bytes pool) (entries_of classes (map (λ s. s.now) texts.now) entries.now))) }
{
    let mut len: u64 = 0;
    for entry in entries {
        len = len
            .saturating_add(6)
            .saturating_add(text_len(texts, entry.name));
    }
    len
}

// The bytes of so many reached lines.
fn lines_len(count: usize) -> u64
    ensures { result ≡ told_length (count * 6) }
{
    (count as u64).saturating_mul(6)
}

fn row_len(texts: &[&[u8]], row: &Row) -> u64
    requires names { AreNames (map (λ s. s.now) texts.now) }
    requires there { (n : ℕ) × IsRow (length (map (λ s. s.now) texts.now)) n row.now }
    ensures { (classes pool : List (List ℕ)) → result ≡ told_length (length (record_bytes 2 pool
        (record_of (map (λ s. s.now) texts.now) classes row.now))) }
{
    let names = text_len(texts, row.test_class).saturating_add(text_len(texts, row.test_method));
    let entries = entries_len(texts, row.consulted.as_slice());
    let lines = lines_len(row.reached.len());
    names
        .saturating_add(37)
        .saturating_add(end_len(texts, row.end))
        .saturating_add(entries)
        .saturating_add(lines)
}

/// The bytes of these classes with their lengths; the most of 64 bits, where there are more.
pub fn classes_len(classes: &[&[u8]]) -> u64
    ensures { result
        ≡ told_length (length (flat_map class_bytes (map (λ s. s.now) classes.now))) }
{
    let mut len: u64 = 0;
    for class in classes {
        len = len.saturating_add(4).saturating_add(class.len() as u64);
    }
    len
}

fn rows_len(texts: &[&[u8]], rows: &[Row]) -> u64
    requires names { AreNames (map (λ s. s.now) texts.now) }
    requires there { (n : ℕ) × All (IsRow (length (map (λ s. s.now) texts.now)) n) rows.now }
    ensures { (classes pool : List (List ℕ)) → result ≡ told_length (length (flat_map
        (record_bytes 2 pool) (records_in (map (λ s. s.now) texts.now) classes rows.now))) }
{
    let mut len: u64 = 0;
    for row in rows {
        len = len.saturating_add(row_len(texts, row));
    }
    len
}

/// The bytes of a history of these classes and records; the most of 64 bits, where there are more.
pub fn history_len(texts: &[&[u8]], classes: &[&[u8]], rows: &[Row]) -> u64
    requires names { AreNames (map (λ s. s.now) texts.now) }
    requires there { (n : ℕ) × All (IsRow (length (map (λ s. s.now) texts.now)) n) rows.now }
    ensures { (profile : ℕ) (known : List (List ℕ)) → result ≡ told_length (length (contents_bytes
        (contents_under profile (map (λ s. s.now) classes.now)
        (records_in (map (λ s. s.now) texts.now) known rows.now)))) }
{
    let classes = classes_len(classes);
    let rows = rows_len(texts, rows);
    classes.saturating_add(16).saturating_add(rows)
}
