//! Numbers of locals, of which one asks whether they have one.
ghost use Rattle.std.specs.Prelude.{◌≡◌, ◌++◌, ◌∷◌, [], OnOk, IfOk};
ghost use Rattle.std.specs.Option.{option_to_list};
ghost use Rattle.luau_scope.specs.Locals.{is_among};

use sqlite_items::Items;
use std::alloc::{AllocError, Global};
use std::collections::BTreeSet;
use std::marker::Model;

/// Numbers of locals. Contracts see them in the order in which they came.
#[derive(Debug, Drop)]
pub(crate) struct Numbers {
    numbers: Items<u32>,
    among: BTreeSet<u32>,
}

impl Model for Numbers {
    ghost use Rattle.std.specs.Prelude.{List, ℕ};
    ghost use Rattle.luau_scope.specs.InScope.{AreAmong};

    ghost Value = { List ℕ };

    ghost view = { λ n. n.numbers };

    ghost invariant = { λ n. AreAmong n.numbers n.among };
}

impl Numbers {
    pub(crate) fn new(alloc: Global) -> Numbers
        ensures { result ≡ [] }
    {
        Numbers {
            numbers: Items::new(alloc),
            among: BTreeSet::new(alloc),
        }
    }

    pub(crate) fn has(&self, number: u32) -> bool
        ensures { result ≡ is_among number self.now }
    {
        self.among.contains(&number)
    }

    pub(crate) fn add(&mut self, number: u32) -> Result<(), AllocError>
        ensures { OnOk result (self.new ≡ self.old ++ number ∷ []) }
    {
        self.numbers.push(number)?;
        if self.among.insert(number).is_err() {
            let _ = self.numbers.pop();
            return Err(AllocError);
        }
        Ok(())
    }
}

/// The numbers, with one more at the end if there is one.
pub(crate) fn with_number(numbers: Numbers, more: Option<u32>) -> Result<Numbers, AllocError>
    ensures { IfOk result (λ all. all ≡ numbers ++ option_to_list more) }
{
    match more {
        None => Ok(numbers),
        Some(number) => {
            let mut all = numbers;
            all.add(number)?;
            Ok(all)
        }
    }
}
