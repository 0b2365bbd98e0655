//! Contexts before writes.
ghost use Rattle.std.specs.Prelude.{◌≡◌, [], ◌∷◌, IfOk};
ghost use Rattle.module_facts.specs.Targets.{target_meant};
ghost use Rattle.report_rules.specs.Statements.{before_write as before_write_context, for_values};
ghost use Rattle.context_types.specs.Types.{context_in};
ghost use Rattle.context_types.specs.Standing.{Grows, StandsContext};

use crate::types::ContextTypes;
use error_context::Context;
use luau_tree::Bytes;
use module_facts::Target;
use std::alloc::{AllocError, Global};
use type_arena::Label;

impl<'a> ContextTypes<'a> {
    /// What is left before a write of the context that follows it.
    pub fn before_write(
        &mut self,
        alloc: Global,
        target: &Target<'_>,
        context: Context,
    ) -> Result<Context, AllocError>
        requires { StandsContext self.old context }
        ensures context { IfOk result (λ made. context_in self.new made ≡ before_write_context (target_meant target.now) (context_in self.old context)) }
        ensures stands { IfOk result (StandsContext self.new) }
        ensures grows { Grows self.old self.new }
    {
        match target {
            Target::Local(local) => {
                let locals = [*local];
                Ok(self.without(context, &locals))
            }
            Target::Global => Ok(context),
            Target::Field(_, name) => {
                let label = label_of(alloc, name)?;
                self.strip_name(alloc, &context, &label)
            }
            Target::Element => self.strip_all(alloc, &context),
        }
    }

    /// The context by which a value is checked that is assigned beside a write: locals keep their sets.
    pub fn before_value(
        &mut self,
        alloc: Global,
        target: &Target<'_>,
        context: Context,
    ) -> Result<Context, AllocError>
        requires { StandsContext self.old context }
        ensures context { IfOk result (λ made. context_in self.new made ≡ for_values (target_meant target.now ∷ []) (context_in self.old context)) }
        ensures stands { IfOk result (StandsContext self.new) }
        ensures grows { Grows self.old self.new }
    {
        match target {
            Target::Field(_, name) => {
                let label = label_of(alloc, name)?;
                self.strip_name(alloc, &context, &label)
            }
            Target::Element => self.strip_all(alloc, &context),
            _ => Ok(context),
        }
    }
}

// A name, as types have it.
fn label_of(alloc: Global, name: &Bytes) -> Result<Label, AllocError>
    ensures { IfOk result (λ label. label ≡ name.now) }
{
    let bytes = Vec::from_slice(alloc, name.as_slice())?;
    Ok(Label::of(bytes))
}
