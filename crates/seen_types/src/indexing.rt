//! What was seen, by numbers: of one number the first counts.
ghost use Rattle.std.specs.Prelude.{◌≡◌, IfOk, ℕ, nat_eq};
ghost use Rattle.std.specs.HashMap.{get};
ghost use Rattle.seen_types.specs.Seen.{expr_at, body_at};

use crate::seen::Seen;
use std::alloc::{AllocError, Global};
use std::collections::HashMap;
use type_arena::TypeRef;

/// Each expression with its type and whether its place is live.
pub(crate) fn exprs_in(
    alloc: Global,
    seen: &[Seen],
) -> Result<HashMap<u32, (TypeRef, bool)>, AllocError>
    ensures { IfOk result (λ found. (id : ℕ) → get nat_eq found id ≡ expr_at seen.now id) }
{
    let mut found = HashMap::new(alloc);
    for i in (0..seen.len()).rev() {
        if let Seen::Expr(id, at, live) = seen[i] {
            found.insert(id.0, (at, live))?;
        }
    }
    Ok(found)
}

/// Each body with whether its place is live.
pub(crate) fn bodies_in(alloc: Global, seen: &[Seen]) -> Result<HashMap<u32, bool>, AllocError>
    ensures { IfOk result (λ found. (id : ℕ) → get nat_eq found id ≡ body_at seen.now id) }
{
    let mut found = HashMap::new(alloc);
    for i in (0..seen.len()).rev() {
        if let Seen::Body(id, live) = seen[i] {
            found.insert(id.0, live)?;
        }
    }
    Ok(found)
}
