//! Lists of parts, first to last.
ghost use Rattle.std.specs.Prelude.{◌≡◌, IfOk, reverse};
ghost use Rattle.luau_tree.specs.View.{view_arms, view_binds, view_choices, view_exprs, view_gens, view_items, view_props, view_stats, view_types};
ghost use Rattle.tree_numbers.specs.Calls.{Calls};
ghost use Rattle.tree_numbers.specs.Numbered.{of_arms, of_binds, of_block, of_choices, of_exprs, of_gens, of_items, of_props, of_types};
ghost use Rattle.tree_numbers.specs.Outcomes.{Gives};

use crate::error::NumberError;
use crate::numbers::Numbers;
use crate::pass::Pass;
use luau_tree::{Arm, Bind, Block, Choice, Expr, Gen, Item, Prop, Stat, TypeSyntax};
use sqlite_items::Items;
use std::alloc::{AllocError, Global};

/// The same items, last to first.
fn reversed<I: Drop>(alloc: Global, items: Items<I>) -> Result<Items<I>, AllocError>
    ensures { IfOk result (λ back. back ≡ reverse items) }
{
    let mut rest = items;
    let mut back = Items::new(alloc);
    while let Some(item) = rest.pop() {
        back.push(item)?;
    }
    Ok(back)
}

impl<
    E: Fn(Global, &mut Numbers, usize, Expr) -> Result<Expr, NumberError>,
    T: Fn(Global, &mut Numbers, usize, TypeSyntax) -> Result<TypeSyntax, NumberError>,
    B: Fn(Global, &mut Numbers, usize, Block) -> Result<Block, NumberError>,
> Pass<E, T, B> {
    /// Expressions in the order of the text.
    pub fn exprs(
        &self,
        numbers: &mut Numbers,
        exprs: Items<Expr>,
    ) -> Result<Items<Expr>, NumberError>
        requires { Calls self.now.depth (E.pre self.now.exp) (E.post self.now.exp) (T.pre self.now.typ) (T.post self.now.typ) (B.pre self.now.block) (B.post self.now.block) }
        ensures { Gives view_exprs (of_exprs (view_exprs exprs)) numbers.old result numbers.new }
    {
        let mut rest = reversed(self.alloc, exprs)?;
        let mut done = Items::new(self.alloc);
        while let Some(e) = rest.pop() {
            let e = self.expression(numbers, e)?;
            done.push(e)?;
        }
        Ok(done)
    }

    /// Statements.
    pub fn stats(
        &self,
        numbers: &mut Numbers,
        stats: Items<Stat>,
    ) -> Result<Items<Stat>, NumberError>
        requires { Calls self.now.depth (E.pre self.now.exp) (E.post self.now.exp) (T.pre self.now.typ) (T.post self.now.typ) (B.pre self.now.block) (B.post self.now.block) }
        ensures { Gives view_stats (of_block (view_stats stats)) numbers.old result numbers.new }
    {
        let mut rest = reversed(self.alloc, stats)?;
        let mut done = Items::new(self.alloc);
        while let Some(stat) = rest.pop() {
            let stat = self.statement(numbers, stat)?;
            done.push(stat)?;
        }
        Ok(done)
    }

    /// Types.
    pub fn types(
        &self,
        numbers: &mut Numbers,
        types: Items<TypeSyntax>,
    ) -> Result<Items<TypeSyntax>, NumberError>
        requires { Calls self.now.depth (E.pre self.now.exp) (E.post self.now.exp) (T.pre self.now.typ) (T.post self.now.typ) (B.pre self.now.block) (B.post self.now.block) }
        ensures { Gives view_types (of_types (view_types types)) numbers.old result numbers.new }
    {
        let mut rest = reversed(self.alloc, types)?;
        let mut done = Items::new(self.alloc);
        while let Some(typ) = rest.pop() {
            let typ = self.typ(numbers, typ)?;
            done.push(typ)?;
        }
        Ok(done)
    }

    /// Properties.
    pub fn props(
        &self,
        numbers: &mut Numbers,
        props: Items<Prop>,
    ) -> Result<Items<Prop>, NumberError>
        requires { Calls self.now.depth (E.pre self.now.exp) (E.post self.now.exp) (T.pre self.now.typ) (T.post self.now.typ) (B.pre self.now.block) (B.post self.now.block) }
        ensures { Gives view_props (of_props (view_props props)) numbers.old result numbers.new }
    {
        let mut rest = reversed(self.alloc, props)?;
        let mut done = Items::new(self.alloc);
        while let Some(prop) = rest.pop() {
            let prop = self.prop(numbers, prop)?;
            done.push(prop)?;
        }
        Ok(done)
    }

    /// Generic parameters.
    pub fn gens(&self, numbers: &mut Numbers, gens: Items<Gen>) -> Result<Items<Gen>, NumberError>
        requires { Calls self.now.depth (E.pre self.now.exp) (E.post self.now.exp) (T.pre self.now.typ) (T.post self.now.typ) (B.pre self.now.block) (B.post self.now.block) }
        ensures { Gives view_gens (of_gens (view_gens gens)) numbers.old result numbers.new }
    {
        let mut rest = reversed(self.alloc, gens)?;
        let mut done = Items::new(self.alloc);
        while let Some(generic) = rest.pop() {
            let generic = self.generic(numbers, generic)?;
            done.push(generic)?;
        }
        Ok(done)
    }

    /// Declared names.
    pub fn binds(
        &self,
        numbers: &mut Numbers,
        binds: Items<Bind>,
    ) -> Result<Items<Bind>, NumberError>
        requires { Calls self.now.depth (E.pre self.now.exp) (E.post self.now.exp) (T.pre self.now.typ) (T.post self.now.typ) (B.pre self.now.block) (B.post self.now.block) }
        ensures { Gives view_binds (of_binds (view_binds binds)) numbers.old result numbers.new }
    {
        let mut rest = reversed(self.alloc, binds)?;
        let mut done = Items::new(self.alloc);
        while let Some(bind) = rest.pop() {
            let bind = self.bind(numbers, bind)?;
            done.push(bind)?;
        }
        Ok(done)
    }

    /// Items of a table.
    pub fn items(
        &self,
        numbers: &mut Numbers,
        items: Items<Item>,
    ) -> Result<Items<Item>, NumberError>
        requires { Calls self.now.depth (E.pre self.now.exp) (E.post self.now.exp) (T.pre self.now.typ) (T.post self.now.typ) (B.pre self.now.block) (B.post self.now.block) }
        ensures { Gives view_items (of_items (view_items items)) numbers.old result numbers.new }
    {
        let mut rest = reversed(self.alloc, items)?;
        let mut done = Items::new(self.alloc);
        while let Some(item) = rest.pop() {
            let item = self.item(numbers, item)?;
            done.push(item)?;
        }
        Ok(done)
    }

    /// The arms of an `if`.
    pub fn arms(&self, numbers: &mut Numbers, arms: Items<Arm>) -> Result<Items<Arm>, NumberError>
        requires { Calls self.now.depth (E.pre self.now.exp) (E.post self.now.exp) (T.pre self.now.typ) (T.post self.now.typ) (B.pre self.now.block) (B.post self.now.block) }
        ensures { Gives view_arms (of_arms (view_arms arms)) numbers.old result numbers.new }
    {
        let mut rest = reversed(self.alloc, arms)?;
        let mut done = Items::new(self.alloc);
        while let Some(arm) = rest.pop() {
            let arm = self.arm(numbers, arm)?;
            done.push(arm)?;
        }
        Ok(done)
    }

    /// The choices of an `if` that is an expression.
    pub fn choices(
        &self,
        numbers: &mut Numbers,
        choices: Items<Choice>,
    ) -> Result<Items<Choice>, NumberError>
        requires { Calls self.now.depth (E.pre self.now.exp) (E.post self.now.exp) (T.pre self.now.typ) (T.post self.now.typ) (B.pre self.now.block) (B.post self.now.block) }
        ensures { Gives view_choices (of_choices (view_choices choices)) numbers.old result numbers.new }
    {
        let mut rest = reversed(self.alloc, choices)?;
        let mut done = Items::new(self.alloc);
        while let Some(choice) = rest.pop() {
            let choice = self.choice(numbers, choice)?;
            done.push(choice)?;
        }
        Ok(done)
    }
}
