//! What was seen, as it is handed over.
ghost use Rattle.std.specs.Prelude.{◌≡◌, IfOk, map};
ghost use Rattle.type_infer.specs.Handing.{one_handed};

use rule_state::Seen as Met;
use seen_types::Seen;
use std::alloc::{AllocError, Global};

/// One that was seen.
fn one(seen: Met) -> Seen
    ensures { result ≡ one_handed seen }
{
    match seen {
        Met::Expr(id, at, live) => Seen::Expr(id, at, live),
        Met::Body(id, live) => Seen::Body(id, live),
    }
}

/// All that was seen, in the same order.
pub(crate) fn handed(alloc: Global, seen: &[Met]) -> Result<Vec<Seen>, AllocError>
    ensures { IfOk result (λ list. list.items ≡ map one_handed seen.now) }
{
    let mut list = Vec::new(alloc);
    for met in seen {
        list.push(one(*met))?;
    }
    Ok(list)
}
