//! What static requires give.
ghost use Rattle.std.specs.Prelude.{◌≡◌, ◌∷◌, ℕ, IfOk};
ghost use Rattle.std.specs.BTreeMap.{get};
ghost use Rattle.std.specs.Ordering.{nat_cmp};
ghost use Rattle.type_infer.specs.Imports.{import_at, types_imported};
ghost use Rattle.type_infer.specs.Outside.{builtins_home};

use luau_tree::{ExprId, List};
use std::alloc::{AllocError, Global};
use std::collections::BTreeMap;
use type_arena::TypeRef;

/// The types that the static requires of a module give, by the numbers of their calls: one for each that leads to a module.
#[derive(Drop)]
pub struct Imports {
    pub list: List<(ExprId, TypeRef)>,
}

/// The types by numbers. Of one number the first counts.
pub(crate) fn by_number(
    alloc: Global,
    imports: &[(ExprId, TypeRef)],
) -> Result<BTreeMap<u32, TypeRef>, AllocError>
    ensures { IfOk result (λ found. (id : ℕ) → get nat_cmp found id ≡ import_at imports.now id) }
{
    let mut found = BTreeMap::new(alloc);
    for i in (0..imports.len()).rev() {
        let (id, at) = imports[i];
        found.insert(id.0, at)?;
    }
    Ok(found)
}

/// The types that came from elsewhere: one for those of the declared builtins, which are all at one home, and the imports.
pub(crate) fn outside(
    alloc: Global,
    imports: &[(ExprId, TypeRef)],
) -> Result<Vec<TypeRef>, AllocError>
    ensures { IfOk result (λ refs. refs.items ≡ builtins_home ∷ types_imported imports.now) }
{
    let mut refs = Vec::new(alloc);
    refs.push(TypeRef { home: 0, id: 0 })?;
    for (_, at) in imports {
        refs.push(*at)?;
    }
    Ok(refs)
}
