//! What stands in written types, and the types that are written for parts.
ghost use Rattle.luau_tree.specs.View.{view_bind, view_gen, view_maybe_type, view_prop, view_prop_key, view_varargs};
ghost use Rattle.tree_numbers.specs.Calls.{Calls};
ghost use Rattle.tree_numbers.specs.Numbered.{of_bind, of_gen, of_maybe_type, of_prop, of_prop_key, of_varargs};
ghost use Rattle.tree_numbers.specs.Outcomes.{Gives};

use crate::error::NumberError;
use crate::numbers::Numbers;
use crate::pass::Pass;
use luau_tree::parts::{bind_of, gen_of, indexer_key, name_key, prop_of};
use luau_tree::{Bind, Block, Expr, Gen, Prop, PropKey, TypeSyntax};
use std::alloc::Global;

impl<
    E: Fn(Global, &mut Numbers, usize, Expr) -> Result<Expr, NumberError>,
    T: Fn(Global, &mut Numbers, usize, TypeSyntax) -> Result<TypeSyntax, NumberError>,
    B: Fn(Global, &mut Numbers, usize, Block) -> Result<Block, NumberError>,
> Pass<E, T, B> {
    /// A type, where one is written.
    pub fn maybe_type(
        &self,
        numbers: &mut Numbers,
        typ: Option<TypeSyntax>,
    ) -> Result<Option<TypeSyntax>, NumberError>
        requires { Calls self.now.depth (E.pre self.now.exp) (E.post self.now.exp) (T.pre self.now.typ) (T.post self.now.typ) (B.pre self.now.block) (B.post self.now.block) }
        ensures { Gives view_maybe_type (of_maybe_type (view_maybe_type typ)) numbers.old result numbers.new }
    {
        match typ {
            None => Ok(None),
            Some(typ) => Ok(Some(self.typ(numbers, typ)?)),
        }
    }

    /// The type behind `...`, where there is one.
    pub fn varargs(
        &self,
        numbers: &mut Numbers,
        vararg: Option<Option<TypeSyntax>>,
    ) -> Result<Option<Option<TypeSyntax>>, NumberError>
        requires { Calls self.now.depth (E.pre self.now.exp) (E.post self.now.exp) (T.pre self.now.typ) (T.post self.now.typ) (B.pre self.now.block) (B.post self.now.block) }
        ensures { Gives view_varargs (of_varargs (view_varargs vararg)) numbers.old result numbers.new }
    {
        match vararg {
            None => Ok(None),
            Some(typ) => Ok(Some(self.maybe_type(numbers, typ)?)),
        }
    }

    /// A declared name.
    #[tactic(auto, using(crate::proofs::Layers::bind_layer))]
    pub fn bind(&self, numbers: &mut Numbers, bind: Bind) -> Result<Bind, NumberError>
        requires { Calls self.now.depth (E.pre self.now.exp) (E.post self.now.exp) (T.pre self.now.typ) (T.post self.now.typ) (B.pre self.now.block) (B.post self.now.block) }
        ensures { Gives view_bind (of_bind (view_bind bind)) numbers.old result numbers.new }
    {
        let Bind { name, span, typ } = bind;
        let typ = self.maybe_type(numbers, typ)?;
        Ok(bind_of(name, span, typ))
    }

    /// A generic parameter.
    #[tactic(auto, using(crate::proofs::Layers::gen_layer))]
    pub fn generic(&self, numbers: &mut Numbers, generic: Gen) -> Result<Gen, NumberError>
        requires { Calls self.now.depth (E.pre self.now.exp) (E.post self.now.exp) (T.pre self.now.typ) (T.post self.now.typ) (B.pre self.now.block) (B.post self.now.block) }
        ensures { Gives view_gen (of_gen (view_gen generic)) numbers.old result numbers.new }
    {
        let Gen {
            name,
            span,
            pack,
            default,
        } = generic;
        let default = self.maybe_type(numbers, default)?;
        Ok(gen_of(name, span, pack, default))
    }

    /// The key of a property.
    #[tactic(auto, using(luau_tree::proofs::Views::name_key_seen, luau_tree::proofs::Views::indexer_key_seen))]
    fn prop_key(&self, numbers: &mut Numbers, key: PropKey) -> Result<PropKey, NumberError>
        requires { Calls self.now.depth (E.pre self.now.exp) (E.post self.now.exp) (T.pre self.now.typ) (T.post self.now.typ) (B.pre self.now.block) (B.post self.now.block) }
        ensures { Gives view_prop_key (of_prop_key (view_prop_key key)) numbers.old result numbers.new }
    {
        match key {
            PropKey::Name(name) => Ok(name_key(name)),
            PropKey::Indexer(key) => Ok(indexer_key(self.typ(numbers, key)?)),
        }
    }

    /// A property of a table type.
    #[tactic(auto, using(crate::proofs::Layers::prop_layer))]
    pub fn prop(&self, numbers: &mut Numbers, prop: Prop) -> Result<Prop, NumberError>
        requires { Calls self.now.depth (E.pre self.now.exp) (E.post self.now.exp) (T.pre self.now.typ) (T.post self.now.typ) (B.pre self.now.block) (B.post self.now.block) }
        ensures { Gives view_prop (of_prop (view_prop prop)) numbers.old result numbers.new }
    {
        let Prop { access, key, typ } = prop;
        let key = self.prop_key(numbers, key)?;
        let typ = self.typ(numbers, typ)?;
        Ok(prop_of(access, key, typ))
    }
}
