//! How lines and reports go together. Each law is the contract of a function that does nothing.
ghost use Rattle.std.specs.Prelude.{◌≡◌, ◌≢◌, ◌↔◌, ℕ, true, List, ◌++◌, None, Some, flat_map, map, sum};
ghost use Rattle.diag_text.specs.Line.{text_of};
ghost use Rattle.diag_text.specs.declared.line.Line.{Line};
ghost use Rattle.outside.specs.Contents.{Contents, File};
ghost use Rattle.nonstrict_cli.specs.Asked.{paths_read};
ghost use Rattle.nonstrict_cli.specs.Checked.{checked, checked_modules};
ghost use Rattle.nonstrict_cli.specs.Folder.{is_module_path, limit_of, module_name, module_paths, size_read, twin_of};
ghost use Rattle.nonstrict_cli.specs.Lines.{lines_of};
ghost use Rattle.nonstrict_cli.specs.Output.{output};
ghost use Rattle.nonstrict_cli.specs.Reports.{ReportsAreCertain, TellReports};
ghost use Rattle.nonstrict_cli.specs.declared.status.Limit.TheVariants.{Bytes};

use diag_text::{Line, lines_are_ordered};
use luau_tree::{sorted_values_are_in_order, sorted_values_are_the_values};
use rules_certain::laws::reports_certain;

/// The lines of a folder tell the reports of its checked modules.
pub fn lines_tell_reports()
    ensures { (files : List File) → TellReports (lines_of files) (checked_modules files) }
{
    lines_are_ordered();
    sorted_values_are_in_order::<Line>();
    sorted_values_are_the_values::<Line>();
}

/// What a run writes is the text of lines that tell the reports of the modules that it checks, and
/// these reports are certain.
pub fn lines_tell_certain_reports()
    ensures { (words : List (List ℕ)) (contents : Contents) → (lines : List Line)
        × ((output words contents).bytes ≡ flat_map text_of lines)
        × TellReports lines (checked words contents)
        × ReportsAreCertain (checked words contents) }
{
    reports_certain();
    lines_tell_reports();
}

/// Of a folder within its limits each module is read once, in order.
pub fn modules_within_the_limits_are_read()
    ensures { (files : List File) → limit_of files ≡ None → paths_read files ≡ module_paths files }
{}

/// Of a folder that passes the limit on bytes the modules are read in order until the sum of what
/// was read, which is told, passes it.
pub fn modules_are_read_until_the_limit_on_bytes()
    ensures { (files : List File) (bytes : ℕ) → limit_of files ≡ Some (Bytes bytes) →
        (later : List (List ℕ)) × (module_paths files ≡ paths_read files ++ later)
        × (sum (map (size_read files) (paths_read files)) ≡ bytes) }
{}

/// Of two paths of modules the second is the first with the other ending exactly where they are two
/// paths with one module name.
pub fn twins_have_one_name()
    ensures { (path other : List ℕ) → is_module_path path ≡ true → is_module_path other ≡ true
        → (other ≡ twin_of path) ↔ ((other ≢ path) × (module_name other ≡ module_name path)) }
{}
