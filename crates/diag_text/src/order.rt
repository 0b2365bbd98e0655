ghost use Rattle.std.specs.Prelude.{◌≡◌, ◌↔◌, IsOkAnd};
ghost use Rattle.std.specs.Cmp.{IsTotalOrder};
ghost use Rattle.std.specs.declared.cmp.Ordering.TheVariants.{Equal};
ghost use Rattle.diag_text.specs.Line.{line_cmp, sorted_lines};

use crate::line::Line;
use luau_tree::sort_once;
use std::alloc::AllocError;

/// The lines in the order of path, place, kind and message, each once. Sorts in place and takes no memory, so
/// the answer is always `Ok`.
pub fn sort_lines(lines: Vec<Line>) -> Result<Vec<Line>, AllocError>
    ensures { IsOkAnd result (λ sorted. sorted.items ≡ sorted_lines lines.items) }
{
    Ok(sort_once(lines))
}

/// Lines are compared by a total order.
pub fn lines_are_ordered()
    ensures { IsTotalOrder line_cmp }
{}

/// Only equal lines tie.
pub fn only_equal_lines_tie(a: &Line, b: &Line)
    ensures { (line_cmp a.now b.now ≡ Equal) ↔ (a.now ≡ b.now) }
{}

#[cfg(test)]
mod tests {
    use super::*;
    use crate::line::LineKind;
    use crate::line::tests::line;
    use std::alloc::Global;
    use std::test::Fail;

    /// Lines in order, each with the first part in which it comes after the line before.
    fn in_order(alloc: Global) -> Result<Vec<Line>, AllocError> {
        let mut written = Vec::new(alloc);
        for (path, place, kind, message) in [
            ("Z.luau", (9u32, 9u32), LineKind::Value, "z"),
            // the path, by bytes
            ("a.luau", (1, 9), LineKind::Value, "z"),
            // the line, as a number
            ("a.luau", (2, 1), LineKind::Parameter, "z"),
            ("a.luau", (10, 1), LineKind::Refused, "z"),
            // the column
            ("a.luau", (10, 2), LineKind::Refused, "z"),
            // the kind
            ("a.luau", (10, 2), LineKind::Skipped, "y"),
            ("a.luau", (10, 2), LineKind::Argument, "x"),
            ("a.luau", (10, 2), LineKind::Missing, "w"),
            ("a.luau", (10, 2), LineKind::Operand, "v"),
            ("a.luau", (10, 2), LineKind::Value, "u"),
            ("a.luau", (10, 2), LineKind::Parameter, "a"),
            // the message, where a beginning comes first, and by what it is and not by what is shown
            ("a.luau", (10, 2), LineKind::Parameter, "a\u{1}"),
            ("a.luau", (10, 2), LineKind::Parameter, "a\u{2}"),
            ("a.luau", (10, 2), LineKind::Parameter, "aa"),
            // a path that begins as another, and a folder's after that
            ("a.luau.luau", (1, 1), LineKind::Refused, ""),
            ("a/b.luau", (1, 1), LineKind::Refused, ""),
        ] {
            written.push(line(alloc, path, place, kind, message)?)?;
        }
        Ok(written)
    }

    #[test]
    fn lines_are_sorted_and_stand_once(rt: HostRuntime) -> Result<(), Fail> {
        let alloc = rt.alloc();
        let expected = in_order(alloc)?;
        let mut lines = in_order(alloc)?;
        lines.reverse();
        assert_eq!(rt; sort_lines(lines)?.as_slice(), expected.as_slice());

        let mut twice = in_order(alloc)?;
        for line in in_order(alloc)? {
            twice.push(line)?;
        }
        assert_eq!(rt; sort_lines(twice)?.as_slice(), expected.as_slice());

        assert_eq!(rt; sort_lines(Vec::new(alloc))?.len(), 0);
        Ok(())
    }
}
