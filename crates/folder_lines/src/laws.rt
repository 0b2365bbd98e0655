//! What follows for every folder. The laws are the contracts of functions that do nothing.
ghost use Rattle.std.specs.Prelude.{◌≡◌, ℕ, true, List};
ghost use Rattle.diag_text.specs.declared.line.Line.{Line};
ghost use Rattle.luau_run.specs.Certain.{Certain};
ghost use Rattle.type_decl.specs.Signatures.{Signature};
ghost use Rattle.reading_fits.specs.OfFolder.{paths_of};
ghost use Rattle.module_graph.specs.declared.needs.Plan.{Plan};
ghost use Rattle.tree_readings.specs.Paths.{are_paths};
ghost use Rattle.folder_plan.specs.Accepted.{AreAccepted};
ghost use Rattle.source_files.specs.declared.file.SourceFile.{SourceFile};
ghost use Rattle.folder_lines.specs.Files.{IsPlanFor, planned_files};
ghost use Rattle.folder_lines.specs.Lines.{AreLines};
ghost use Rattle.folder_lines.specs.Reported.{TellReports, planned_places, planned_program};

use diag_text::{Line, lines_are_ordered};
use folder_plan::laws::planned_modules_are_certain;
use luau_grammar::laws::the_parser_reads_the_grammar;
use luau_lex::laws::laws_determine_tokens;
use luau_tree::{sorted_values_are_in_order, sorted_values_are_the_values};
use module_graph::fates_are_unique;
use report_rules::laws::reports_are_given_in_order;
use tree_readings::laws::trees_of_texts_stand_apart;

/// The trees of a folder's files stand apart, and the profile refuses nothing of them.
pub fn trees_of_files_are_accepted()
    ensures { (table : List (List ℕ × Signature)) (files : List SourceFile) → AreAccepted table (planned_files (paths_of table) files) }
{
    trees_of_texts_stand_apart();
    laws_determine_tokens();
    the_parser_reads_the_grammar();
}

/// What the rules report of a folder by its plan is certain.
pub fn reports_of_folders_are_certain()
    ensures { (table : List (List ℕ × Signature)) (files : List SourceFile) (plan : Plan) → are_paths (paths_of table) ≡ true
        → IsPlanFor table files plan → Certain (planned_program table files plan) (planned_places table files plan) }
{
    trees_of_files_are_accepted();
    planned_modules_are_certain();
}

/// The lines of a folder tell its reports.
pub fn lines_tell_reports()
    ensures { (table : List (List ℕ × Signature)) (files : List SourceFile) (lines : List Line) (made : AreLines table files lines)
        → TellReports table files made.plan lines }
{
    lines_are_ordered();
    sorted_values_are_in_order::<Line>();
    sorted_values_are_the_values::<Line>();
    reports_are_given_in_order();
}

/// A folder has one list of lines.
pub fn a_folder_has_one_list_of_lines()
    ensures { (table : List (List ℕ × Signature)) (files : List SourceFile) (lines others : List Line)
        → AreLines table files lines → AreLines table files others → lines ≡ others }
{
    fates_are_unique();
}
