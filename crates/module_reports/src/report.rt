use crate::kind::ReportKind;
use luau_tree::{Place, Span};

/// Code that is certain to fail: its place, the bytes of the text where that stands, and what is said of it.
#[derive(Debug, Drop)]
pub struct Report {
    pub place: Place,
    pub at: Span,
    pub kind: ReportKind,
}
