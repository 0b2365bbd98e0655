//! Lists of one.
ghost use Rattle.std.specs.Prelude.{◌≡◌, ◌∷◌, [], IfOk};

use sqlite_items::Items;
use std::alloc::{AllocError, Global};

/// One item alone.
pub fn one<T: Drop>(alloc: Global, item: T) -> Result<Items<T>, AllocError>
    ensures { IfOk result (λ found. found ≡ item ∷ []) }
{
    let mut found = Items::new(alloc);
    found.push(item)?;
    Ok(found)
}
