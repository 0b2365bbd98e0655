ghost use Rattle.tree_numbers.specs.Counting.{next_body, next_expr};
ghost use Rattle.tree_numbers.specs.Outcomes.{Gives};

use crate::error::NumberError;
use luau_tree::{ExprId, FnId};

/// The number of the next expression, and that of the next body.
#[derive(Clone, Copy, Debug)]
pub struct Numbers {
    pub exprs: u32,
    pub bodies: u32,
}

impl Numbers {
    /// A number for an expression.
    pub fn expression(&mut self) -> Result<ExprId, NumberError>
        ensures { Gives (λ id. id.0) next_expr self.old result self.new }
    {
        let id = self.exprs;
        match id.checked_add(1) {
            Some(next) => {
                self.exprs = next;
                Ok(ExprId(id))
            }
            None => Err(NumberError::NoNumber),
        }
    }

    /// A number for a body.
    pub fn body(&mut self) -> Result<FnId, NumberError>
        ensures { Gives (λ id. id.0) next_body self.old result self.new }
    {
        let id = self.bodies;
        match id.checked_add(1) {
            Some(next) => {
                self.bodies = next;
                Ok(FnId(id))
            }
            None => Err(NumberError::NoNumber),
        }
    }
}
