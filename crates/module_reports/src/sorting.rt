//! Reports in order.
ghost use Rattle.std.specs.Prelude.{◌≡◌, map, IfOk};
ghost use Rattle.report_rules.specs.Printed.{printed};
ghost use Rattle.module_reports.specs.Meant.{report_meant};

use crate::report::Report;
use crate::told::Told;
use luau_tree::sort_once;
use std::alloc::{AllocError, Global};

/// The reports by offset, kind, message and place, each once.
#[tactic(auto, using(report_rules::proofs::PrintedFacts::same_report))]
pub fn sort_reports(alloc: Global, reports: Vec<Report>) -> Result<Vec<Report>, AllocError>
    ensures { IfOk result (λ sorted. map report_meant sorted.items ≡ printed (map report_meant reports.items)) }
{
    let told = tell_all(alloc, reports)?;
    untold(alloc, sort_once(told))
}

// The reports with their messages.
fn tell_all(alloc: Global, reports: Vec<Report>) -> Result<Vec<Told>, AllocError>
    ensures { IfOk result (λ told. told.items ≡ map report_meant reports.items) }
{
    let mut told = Vec::new(alloc);
    for report in reports {
        told.push(Told::of(alloc, report)?)?;
    }
    Ok(told)
}

// The reports without their messages.
fn untold(alloc: Global, told: Vec<Told>) -> Result<Vec<Report>, AllocError>
    ensures { IfOk result (λ reports. map report_meant reports.items ≡ told.items) }
{
    let mut reports = Vec::new(alloc);
    for one in told {
        reports.push(one.into_report())?;
    }
    Ok(reports)
}
