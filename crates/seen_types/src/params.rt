use luau_tree::FnId;
use std::alloc::{AllocError, Global};
use std::collections::HashMap;
use type_arena::TypeRef;

/// The types that are written for the parameters of functions, by the numbers of their bodies.
#[derive(Drop)]
pub struct ParamTypes {
    pub(crate) types: HashMap<u32, Vec<TypeRef>>,
}

impl ParamTypes {
    ghost use Rattle.std.specs.Prelude.{◌≡◌, ◌==◌, ℕ, [], OnOk, if◌then◌else◌};
    ghost use Rattle.seen_types.specs.Tables.{types_for};

    /// Those of no function.
    pub fn new(alloc: Global) -> ParamTypes
        ensures { (function : ℕ) → types_for result function ≡ [] }
    {
        ParamTypes {
            types: HashMap::new(alloc),
        }
    }

    /// The types of the parameters of a function, in their order.
    pub fn put(&mut self, function: FnId, types: Vec<TypeRef>) -> Result<(), AllocError>
        ensures { OnOk result ((other : ℕ) → types_for self.new other ≡ (if function.0 == other then types.items else types_for self.old other)) }
    {
        self.types.insert(function.0, types)?;
        Ok(())
    }

    /// The types of the parameters of a function, in their order.
    pub fn of(&self, function: FnId) -> &[TypeRef]
        ensures { result.now ≡ types_for self.now function.0 }
    {
        match self.types.get(&function.0) {
            None => &[],
            Some(types) => types.as_slice(),
        }
    }
}
