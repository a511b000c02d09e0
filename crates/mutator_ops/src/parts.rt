//! Parts of a method that its mutants are made of.

ghost use Rattle.std.specs.Prelude.{◌≡◌, ◌++◌, IfOk, OnOk, map, option_copied};
ghost use Rattle.class_link.specs.Linking.{content_of, lines_of, line_in};
ghost use Rattle.class_link.specs.View.{line_of};
ghost use Rattle.mutator_ops.specs.Mutants.{code_of, line_rows};

use class_link::LinkedLine;
use class_model::{Attr, Body, Code, Memory, Seq};
use std::alloc::Global;

/// The code of a method: its first attribute that is Code.
pub fn code_of(attrs: &[Attr]) -> Option<&Code>
    ensures { option_copied result ≡ code_of attrs.now }
{
    for attr in attrs {
        if let Body::Code(code) = &attr.body {
            return Some(code);
        }
    }
    None
}

fn push_rows(lines: &mut Seq<LinkedLine>, rows: &[(u32, u16)]) -> Result<(), Memory>
    ensures { OnOk result (map line_of lines.new ≡ map line_of lines.old ++ map line_in rows.now) }
{
    for (start, line) in rows {
        lines.push(LinkedLine {
            start: *start,
            line: *line,
        })?;
    }
    Ok(())
}

fn push_lines(lines: &mut Seq<LinkedLine>, attr: &Attr) -> Result<(), Memory>
    ensures { OnOk result (
        map line_of lines.new ≡ map line_of lines.old ++ lines_of (content_of attr.now)) }
{
    match &attr.body {
        Body::Lines(rows) => push_rows(lines, rows.as_slice()),
        _ => Ok(()),
    }
}

/// The line rows of a code, in file order.
pub fn line_rows(alloc: Global, attrs: &[Attr]) -> Result<Seq<LinkedLine>, Memory>
    ensures { IfOk result (λ rows. map line_of rows ≡ line_rows attrs.now) }
{
    let mut lines = Seq::new(alloc);
    for attr in attrs {
        push_lines(&mut lines, attr)?;
    }
    Ok(lines)
}
