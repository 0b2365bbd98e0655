//! What is handed over at the end.
ghost use Rattle.std.specs.Prelude.{◌≡◌, ℕ, Bool, map, All, IsTrue};
ghost use Rattle.type_arena.specs.Arena.{below_of, home_of, store_of};
ghost use Rattle.type_arena.specs.Meaning.{term_of};
ghost use Rattle.type_arena.specs.Store.{has as has_node};
ghost use Rattle.local_types.specs.Growing.{HaveHomes};
ghost use Rattle.rule_state.specs.Answers.{seen_in, StayWithin};
ghost use Rattle.rule_state.specs.Sound.{types_in, StartsWithin};
ghost use Rattle.rule_state.specs.Work.{work_of};

use crate::point::Seen;
use crate::state::RuleState;
use type_arena::{Arena, TypeRef};

/// What was seen, and the type at hand, in the arena of the types.
#[derive(Drop)]
pub struct Answers<'a> {
    pub arena: Arena<'a>,
    pub seen: Vec<Seen>,
    pub value: TypeRef,
}

impl<'a> RuleState<'a> {
    /// What was seen, and the type at hand. All else is let go.
    pub fn into_answers(self) -> Answers<'a>
        // What each reference means.
        ensures value { term_of (store_of result.arena) result.value ≡ (work_of self.entry).value }
        ensures seen { map (seen_in (store_of result.arena)) result.seen.items ≡ (work_of self.entry).seen }

        // Each reference is there.
        ensures value_there { IsTrue (has_node (store_of result.arena) result.value) }
        ensures seen_there { All (λ seen. All (λ at. IsTrue (has_node (store_of result.arena) at)) (types_in seen)) result.seen.items }

        // The arena stands where it stood, and leads to no home to which neither the arenas below nor what came from elsewhere lead.
        ensures home { home_of result.arena ≡ (work_of self.entry).around.home }
        ensures below { below_of result.arena ≡ (work_of self.entry).around.below }
        ensures homes { (test : ℕ → Bool) → StartsWithin test result.arena → HaveHomes test (work_of self.entry).around.outside → StayWithin test result.arena result.value result.seen.items }
    {
        Answers {
            arena: self.types.into_arena(),
            seen: self.seen,
            value: self.value,
        }
    }
}
