//! The parts of expressions and statements that are neither.
ghost use Rattle.luau_tree.specs.View.{view_arm, view_binds, view_block, view_body, view_choice, view_gens, view_item, view_maybe_block, view_maybe_expr, view_maybe_type, view_varargs};
ghost use Rattle.tree_numbers.specs.Calls.{Calls};
ghost use Rattle.tree_numbers.specs.Headers.{of_header};
ghost use Rattle.tree_numbers.specs.Numbered.{of_block, of_body, of_item, of_maybe_block, of_maybe_expr};
ghost use Rattle.tree_numbers.specs.Outcomes.{Gives, of_arm, of_choice};

use crate::error::NumberError;
use crate::numbers::Numbers;
use crate::pass::Pass;
use luau_tree::parts::{arm_of, block_of, body_of, choice_of, field_item, keyed_item, plain_item};
use luau_tree::{Arm, Bind, Block, Body, Choice, Expr, Gen, Item, TypeSyntax};
use sqlite_items::Items;
use std::alloc::Global;

impl<
    E: Fn(Global, &mut Numbers, usize, Expr) -> Result<Expr, NumberError>,
    T: Fn(Global, &mut Numbers, usize, TypeSyntax) -> Result<TypeSyntax, NumberError>,
    B: Fn(Global, &mut Numbers, usize, Block) -> Result<Block, NumberError>,
> Pass<E, T, B> {
    /// The statements of a block.
    #[tactic(auto, using(crate::proofs::Layers::block_layer))]
    pub fn block_inside(&self, numbers: &mut Numbers, block: Block) -> Result<Block, NumberError>
        requires { Calls self.now.depth (E.pre self.now.exp) (E.post self.now.exp) (T.pre self.now.typ) (T.post self.now.typ) (B.pre self.now.block) (B.post self.now.block) }
        ensures { Gives view_block (of_block (view_block block)) numbers.old result numbers.new }
    {
        let Block { stats } = block;
        Ok(block_of(self.stats(numbers, stats)?))
    }

    /// A block, where there is one.
    pub fn maybe_block(
        &self,
        numbers: &mut Numbers,
        block: Option<Block>,
    ) -> Result<Option<Block>, NumberError>
        requires { Calls self.now.depth (E.pre self.now.exp) (E.post self.now.exp) (T.pre self.now.typ) (T.post self.now.typ) (B.pre self.now.block) (B.post self.now.block) }
        ensures { Gives view_maybe_block (of_maybe_block (view_maybe_block block)) numbers.old result numbers.new }
    {
        match block {
            None => Ok(None),
            Some(block) => Ok(Some(self.block(numbers, block)?)),
        }
    }

    /// An expression, where there is one.
    pub fn maybe_expr(
        &self,
        numbers: &mut Numbers,
        e: Option<Expr>,
    ) -> Result<Option<Expr>, NumberError>
        requires { Calls self.now.depth (E.pre self.now.exp) (E.post self.now.exp) (T.pre self.now.typ) (T.post self.now.typ) (B.pre self.now.block) (B.post self.now.block) }
        ensures { Gives view_maybe_expr (of_maybe_expr (view_maybe_expr e)) numbers.old result numbers.new }
    {
        match e {
            None => Ok(None),
            Some(e) => Ok(Some(self.expression(numbers, e)?)),
        }
    }

    /// A condition, and the block that runs where it is true.
    #[tactic(auto, using(crate::proofs::Layers::arm_layer))]
    pub fn arm(&self, numbers: &mut Numbers, arm: Arm) -> Result<Arm, NumberError>
        requires { Calls self.now.depth (E.pre self.now.exp) (E.post self.now.exp) (T.pre self.now.typ) (T.post self.now.typ) (B.pre self.now.block) (B.post self.now.block) }
        ensures { Gives view_arm (of_arm (view_arm arm)) numbers.old result numbers.new }
    {
        let Arm { cond, block } = arm;
        let cond = self.expression(numbers, cond)?;
        let block = self.block(numbers, block)?;
        Ok(arm_of(cond, block))
    }

    /// A condition, and the value where it is true.
    #[tactic(auto, using(crate::proofs::Layers::choice_layer))]
    pub fn choice(&self, numbers: &mut Numbers, choice: Choice) -> Result<Choice, NumberError>
        requires { Calls self.now.depth (E.pre self.now.exp) (E.post self.now.exp) (T.pre self.now.typ) (T.post self.now.typ) (B.pre self.now.block) (B.post self.now.block) }
        ensures { Gives view_choice (of_choice (view_choice choice)) numbers.old result numbers.new }
    {
        let Choice { cond, value } = choice;
        let cond = self.expression(numbers, cond)?;
        let value = self.expression(numbers, value)?;
        Ok(choice_of(cond, value))
    }

    /// An item of a table.
    #[tactic(auto, using(luau_tree::proofs::Views::field_item_seen, luau_tree::proofs::Views::keyed_item_seen, luau_tree::proofs::Views::plain_item_seen))]
    pub fn item(&self, numbers: &mut Numbers, item: Item) -> Result<Item, NumberError>
        requires { Calls self.now.depth (E.pre self.now.exp) (E.post self.now.exp) (T.pre self.now.typ) (T.post self.now.typ) (B.pre self.now.block) (B.post self.now.block) }
        ensures { Gives view_item (of_item (view_item item)) numbers.old result numbers.new }
    {
        match item {
            Item::Field { name, value } => {
                Ok(field_item(name, self.expression(numbers, value)?))
            }
            Item::Keyed { key, value } => {
                let key = self.expression(numbers, key)?;
                let value = self.expression(numbers, value)?;
                Ok(keyed_item(key, value))
            }
            Item::Plain(value) => Ok(plain_item(self.expression(numbers, value)?)),
        }
    }

    /// What stands in a function's body before its block.
    fn header(
        &self,
        numbers: &mut Numbers,
        generics: Items<Gen>,
        params: Items<Bind>,
        vararg: Option<Option<TypeSyntax>>,
        returned: Option<TypeSyntax>,
    ) -> Result<
        (
            Items<Gen>,
            Items<Bind>,
            Option<Option<TypeSyntax>>,
            Option<TypeSyntax>,
        ),
        NumberError,
    >
        requires { Calls self.now.depth (E.pre self.now.exp) (E.post self.now.exp) (T.pre self.now.typ) (T.post self.now.typ) (B.pre self.now.block) (B.post self.now.block) }
        ensures { Gives (λ h. (view_gens h.0, view_binds h.1, view_varargs h.2, view_maybe_type h.3)) (of_header (view_gens generics) (view_binds params) (view_varargs vararg) (view_maybe_type returned)) numbers.old result numbers.new }
    {
        let generics = self.gens(numbers, generics)?;
        let params = self.binds(numbers, params)?;
        let vararg = self.varargs(numbers, vararg)?;
        let returned = self.maybe_type(numbers, returned)?;
        Ok((generics, params, vararg, returned))
    }

    /// A function's body, which comes before its parts.
    #[tactic(auto, using(crate::proofs::Layers::body_layer))]
    pub fn body(&self, numbers: &mut Numbers, body: Body) -> Result<Body, NumberError>
        requires { Calls self.now.depth (E.pre self.now.exp) (E.post self.now.exp) (T.pre self.now.typ) (T.post self.now.typ) (B.pre self.now.block) (B.post self.now.block) }
        ensures { Gives view_body (of_body (view_body body)) numbers.old result numbers.new }
    {
        let Body {
            has_self,
            generics,
            params,
            vararg,
            result: returned,
            block,
            span,
            ..
        } = body;
        let id = numbers.body()?;
        let (generics, params, vararg, returned) = self.header(
            numbers, generics, params, vararg, returned,
        )?;
        let block = self.block(numbers, block)?;
        Ok(body_of(
            id, has_self, generics, params, vararg, returned, block, span,
        ))
    }
}
