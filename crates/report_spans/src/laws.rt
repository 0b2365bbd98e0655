//! What a report says of its place. Each law is the contract of a function that does nothing.

ghost use Rattle.std.specs.Prelude.{◌≡◌, true, Contains};
ghost use Rattle.std.specs.List.{filter_map};
ghost use Rattle.luau_run.specs.ReadFolder.{are_distinct};
ghost use Rattle.luau_run.specs.SyntaxNode.{of_block};
ghost use Rattle.report_rules.specs.Rules.{Rules};
ghost use Rattle.report_rules.specs.Reports.{Report, findings, reports};
ghost use Rattle.report_rules.specs.Printed.{printed_reports};
ghost use Rattle.report_spans.specs.Located.{located, places_and_spans, StandsAt};

/// Each expression of a module, with its span, and each parameter of its functions, with that of its
/// name, has one entry of findings, in the order of the text.
pub fn entries_stand_at_their_syntax()
    ensures { (rules : Rules) →
        places_and_spans (findings rules) ≡ located (of_block rules.reading.block) }
{}

/// The place and the span of a report are those of an expression of the module, or of a parameter
/// and its name. So it is with the reports that are given.
pub fn reports_stand_at_their_syntax()
    ensures all { (rules : Rules) (report : Report) → Contains (reports rules) report
        → StandsAt (of_block rules.reading.block) report.place report.at }
    ensures given { (rules : Rules) (report : Report) → Contains (printed_reports rules) report
        → StandsAt (of_block rules.reading.block) report.place report.at }
{}
