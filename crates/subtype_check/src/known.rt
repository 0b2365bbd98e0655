ghost use Rattle.std.specs.Prelude.{◌≡◌, ◌<◌, length, slice_set, ℕ, Contains, Some, IfSome};

use type_arena::TypeRef;

/// Two types of which the one may be below the other. Where the lower one isn't given, it is unknown.
#[derive(Clone, Copy, Debug, PartialEq, Eq, Hash)]
pub struct Pair {
    pub lower: Option<TypeRef>,
    pub upper: TypeRef,
}

/// Two types, and whether the lower one is below the upper one.
#[derive(Clone, Copy, Debug)]
pub(crate) struct Known {
    pub(crate) pair: Pair,
    pub(crate) below: bool,
}

/// What is remembered of two types.
pub(crate) fn look_up(known: &[Option<Known>], pair: Pair) -> Option<bool>
    requires { 0 < length known.now }
    ensures { IfSome result (λ below. Contains known.now (Some (record { pair = pair; below = below }))) }
{
    let entry = known[place_of(pair, known.len())];
    match entry {
        Some(found) if found.pair == pair => Some(found.below),
        _ => None,
    }
}

/// Remembers an answer on two types, in the place of what was remembered there.
pub(crate) fn keep(known: &mut [Option<Known>], pair: Pair, below: bool)
    requires { 0 < length known.old }
    ensures { (i : ℕ) × (known.new ≡ slice_set known.old i (Some (record { pair = pair; below = below }))) }
{
    let place = place_of(pair, known.len());
    known[place] = Some(Known { pair, below });
}

// The place for two types, of as many as there are.
fn place_of(pair: Pair, places: usize) -> usize
    requires { 0 < places }
    ensures { result < places }
{
    let lower = match pair.lower {
        Some(at) => number_of(at),
        None => 0,
    };
    let mixed = lower.wrapping_mul(31).wrapping_add(number_of(pair.upper));
    mixed as usize % places
}

// A number for a reference, which few others have.
fn number_of(at: TypeRef) -> u64 {
    at.id.wrapping_mul(65537).wrapping_add(at.home as u64)
}
