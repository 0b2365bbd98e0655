//! What an expression stands for, by the reading of its module.
ghost use Rattle.std.specs.Prelude.{◌≡◌, map};
ghost use Rattle.std.specs.Option.{option_copied};
ghost use Rattle.luau_scope.specs.Laws.{AscendFrom};
ghost use Rattle.luau_scope.specs.Locals.{fixed_at, given_builtin, path_of, use_at};
ghost use Rattle.std.specs.Option.{option_and_then};
ghost use Rattle.std.specs.Prelude.{slice_get};

use crate::reading::{Scoped, Use};
use luau_tree::{Bytes, ExprId, LocalId};

impl Scoped {
    /// What an expression stands for; None where it is no name and no builtin's path.
    pub fn use_of(&self, at: ExprId) -> Option<&Use>
        requires { AscendFrom 0 (map (λ u. u.0.0) self.now.uses) }
        ensures { option_copied result ≡ use_at self.now.uses at }
    {
        let mut rest = self.uses.as_slice();
        loop {
            let (front, back) = rest.split_at(rest.len() / 2);
            let [(id, meaning), behind @ ..] = back else {
                return None;
            };
            if at.0 == id.0 {
                return Some(meaning);
            }
            rest = if at.0 < id.0 { front } else { behind };
        }
    }

    /// The path of the builtin that an expression is for certain: its own, or that of a local that is not assigned and
    /// whose `local` gives it one.
    pub fn fixed_builtin(&self, at: ExprId) -> Option<&Bytes>
        requires { AscendFrom 0 (map (λ u. u.0.0) self.now.uses) }
        ensures { option_copied result ≡ fixed_at self.now.uses self.now.locals at }
    {
        match self.use_of(at) {
            Some(Use::Builtin(path)) => Some(path),
            Some(Use::Local(local)) => self.given_to(*local),
            _ => None,
        }
    }

    /// The path of the builtin that a local has for ever.
    fn given_to(&self, local: LocalId) -> Option<&Bytes>
        requires { AscendFrom 0 (map (λ u. u.0.0) self.now.uses) }
        ensures { option_copied result ≡ option_and_then (given_builtin self.now.uses) (slice_get self.now.locals local.0) }
    {
        let Some(info) = self.locals.as_slice().get(local.0 as usize) else {
            return None;
        };
        if info.assigned {
            return None;
        }
        match info.given {
            None => None,
            Some(at) => self.path_at(at),
        }
    }

    /// The path of the builtin that an expression is.
    fn path_at(&self, at: ExprId) -> Option<&Bytes>
        requires { AscendFrom 0 (map (λ u. u.0.0) self.now.uses) }
        ensures { option_copied result ≡ path_of (use_at self.now.uses at) }
    {
        match self.use_of(at) {
            Some(Use::Builtin(path)) => Some(path),
            _ => None,
        }
    }
}
