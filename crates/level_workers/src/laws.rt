//! Laws of the ticket machine, for every list of draws, and of the rule of a board.
ghost use Rattle.std.specs.Prelude.{◌≡◌, ℕ, ◌+◌, ◌<◌, ◌≤◌, List, length, All, Some, slice_get};
ghost use Rattle.std.specs.List.Sorted.{IsStrictlyIncreasing};
ghost use Rattle.level_workers.specs.declared.view.View.{View};
ghost use Rattle.level_workers.specs.Numbers.{times, EachBelow, SameNumbers, below};
ghost use Rattle.level_workers.specs.Machine.{after, all_found, AllHaveMet};
ghost use Rattle.level_workers.specs.Rule.{Stands};
ghost use Rattle.level_workers.specs.Outputs.{IsPlainList, numbers_of, AllGiven, placed};

use crate::task::Task;

/// The next number is the number of draws, and the first n seats, where no other draws, have found the numbers below it,
/// each once.
pub fn each_number_is_found_once()
    ensures next { (draws : List ℕ) → (after draws).next ≡ length draws }
    ensures once { (n : ℕ) (draws : List ℕ) → All (λ seat. seat < n) draws → EachBelow (length draws) (all_found n (after draws)) }
{}

/// The draw that k others come before finds k, for the seat that draws.
pub fn a_draw_finds_its_place()
    ensures { (draws : List ℕ) (k seat : ℕ) → slice_get draws k ≡ Some seat → 0 < times k ((after draws).found seat) }
{}

/// A seat finds numbers in rising order.
pub fn a_seat_finds_in_order()
    ensures { (draws : List ℕ) (seat : ℕ) → IsStrictlyIncreasing ((after draws).found seat) }
{}

/// Once each of at least one seat has met the limit, the numbers below it were drawn, each once.
pub fn seats_past_the_limit_drew_all()
    ensures { (n limit : ℕ) (draws : List ℕ) → 1 ≤ n → AllHaveMet n limit draws → EachBelow limit (below limit (all_found n (after draws))) }
{}

/// Once each of at least one seat has met the limit, any outputs of the numbers that were drawn are, placed by number, the
/// plain list.
pub fn outputs_by_number_are_the_plain_list<T: Task>(task: &T)
    ensures { (n limit : ℕ) (draws : List ℕ) → 1 ≤ n → AllHaveMet n limit draws → (outputs : List (ℕ × T.Out)) → SameNumbers (numbers_of outputs) (below limit (all_found n (after draws))) → AllGiven (T.gives task.now) outputs → IsPlainList (T.gives task.now) limit (placed limit outputs) }
{}

/// The word of a board stays below its limit and its seats together, so it never wraps.
pub fn the_word_stays_low()
    ensures { (limit seats word : ℕ) (views : List View) → Stands limit seats word views → word ≤ limit + seats }
{}
