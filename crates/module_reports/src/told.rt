//! Reports with their messages, by which they are sorted.
ghost use Rattle.std.specs.Prelude.{◌≡◌, IfOk};
ghost use Rattle.std.specs.Cmp.{eq_by_cmp_equiv, partial_equiv_from_equiv, partial_order_from_total};
ghost use Rattle.std.specs.Ordering.{as_partial_cmp, eq_by_cmp};
ghost use Rattle.std.proofs.Common.{refl};
ghost use Rattle.std.proofs.Props.{props};
ghost use mathlib.Core.Sum.{⊎_set};
ghost use Rattle.report_rules.specs.Messages.{message as message_of};
ghost use Rattle.report_rules.specs.Printed.{report_cmp};
ghost use Rattle.report_rules.proofs.PrintedFacts.{report_cmp_total};
ghost use Rattle.module_reports.specs.Meant.{kind_meant, report_meant};

use crate::order::{compare_kinds, compare_places, rank_of_kind};
use crate::report::Report;
use crate::wording::message;
use luau_tree::Bytes;
use std::alloc::{AllocError, Global};
use std::cmp::Ordering;
use std::marker::Model;

// A report, and its message. Contracts see the report.
#[derive(Debug, Drop)]
pub(crate) struct Told {
    report: Report,
    message: Bytes,
    ghost said: { message ≡ message_of (kind_meant report.kind) } by { Prim.hlevel props },
}

impl Model for Told {
    ghost use Rattle.report_rules.specs.Reports.{Report};
    ghost use Rattle.module_reports.specs.Meant.{report_meant};

    ghost Value = { Report };

    ghost view = { λ t. report_meant t.report };
}

impl Told {
    // A report with its message.
    pub(crate) fn of(alloc: Global, report: Report) -> Result<Told, AllocError>
        ensures { IfOk result (λ told. told ≡ report_meant report) }
    {
        let message = message(alloc, &report.kind)?;
        Ok(Told { report, message })
    }

    // The report.
    pub(crate) fn into_report(self) -> Report
        ensures { report_meant result ≡ self }
    {
        self.report
    }
}

impl PartialEq for Told {
    ghost eq = { eq_by_cmp report_cmp };

    ghost laws = { partial_equiv_from_equiv (eq_by_cmp_equiv report_cmp_total) };

    fn eq(&self, other: &Told) -> bool {
        self.cmp(other) == Ordering::Equal
    }
}

impl Eq for Told {
    ghost laws = { eq_by_cmp_equiv report_cmp_total };
}

impl PartialOrd for Told {
    ghost partial_cmp = { as_partial_cmp report_cmp };

    ghost laws = { partial_order_from_total report_cmp_total };

    fn partial_cmp(&self, other: &Told) -> Option<Ordering> {
        Some(self.cmp(other))
    }
}

// By offset, kind, message and place; what is left of reports that tie in these comes last.
impl Ord for Told {
    ghost cmp = { report_cmp };

    ghost total = { report_cmp_total };

    ghost matches_partial_cmp = { λ x y. refl };

    ghost matches_eq = { λ x y. refl };

    fn cmp(&self, other: &Told) -> Ordering {
        let starts = self.report.at.start.cmp(&other.report.at.start);
        let ranks = rank_of_kind(&self.report.kind).cmp(&rank_of_kind(&other.report.kind));
        let messages = self.message.cmp(&other.message);
        let places = compare_places(self.report.place, other.report.place);
        let ends = self.report.at.end.cmp(&other.report.at.end);
        let kinds = compare_kinds(&self.report.kind, &other.report.kind);
        starts.then(ranks.then(messages.then(places.then(ends.then(kinds)))))
    }
}
