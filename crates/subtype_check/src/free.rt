ghost use Rattle.std.specs.Prelude.{◌≡◌, not};
ghost use Rattle.std.specs.List.{list_all};
ghost use Rattle.type_arena.specs.Term.{free_of};
ghost use Rattle.type_normal.specs.Free.{all_values};
ghost use Rattle.type_normal.specs.Members.{has_member};
ghost use Rattle.subtype_check.specs.Below.{free_below};
ghost use Rattle.subtype_check.specs.Checking.{is_among, is_everything};

use std::cmp::Ordering;
use type_arena::{Among, Node};

/// Whether each value of the free part of a node belongs to that of another one.
pub fn is_free_below(lower: &Node, upper: &Node) -> bool
    ensures { result ≡ free_below (free_of lower.now) (free_of upper.now) }
{
    let kinds = (!lower.nil | upper.nil)
        & (!lower.truth | upper.truth)
        & (!lower.falsity | upper.falsity)
        & (!lower.number | upper.number)
        & (!lower.other | upper.other);
    kinds
        & is_subset(&lower.strings, &upper.strings)
        & is_subset(&lower.functions, &upper.functions)
}

/// Whether all values but tables belong to the free part of a node.
pub fn has_all_values(node: &Node) -> bool
    ensures { result ≡ free_below all_values (free_of node.now) }
{
    let kinds = node.nil & node.truth & node.falsity & node.number & node.other;
    kinds & is_whole(&node.strings) & is_whole(&node.functions)
}

// Whether each member of a set is in another one.
fn is_subset<T: Ord>(a: &Among<T>, b: &Among<T>) -> bool
    ensures { result ≡ is_among T.cmp a.now b.now }
{
    match (a, b) {
        (Among::Only(xs), Among::Only(ys)) => are_in(xs.as_slice(), ys.as_slice()),
        (Among::Only(xs), Among::AllBut(ys)) => are_not_in(xs.as_slice(), ys.as_slice()),
        (Among::AllBut(_), Among::Only(_)) => false,
        (Among::AllBut(xs), Among::AllBut(ys)) => are_in(ys.as_slice(), xs.as_slice()),
    }
}

// Whether a set has all members, by its form.
fn is_whole<T>(set: &Among<T>) -> bool
    ensures { result ≡ is_everything set.now }
{
    match set {
        Among::Only(_) => false,
        Among::AllBut(members) => members.as_slice().is_empty(),
    }
}

// Whether a list has each member of another one.
fn are_in<T: Ord>(xs: &[T], ys: &[T]) -> bool
    ensures { result ≡ list_all (λ x. has_member T.cmp x ys.now) xs.now }
{
    xs.iter().all(|x| has(ys, x))
}

// Whether a list has no member of another one.
fn are_not_in<T: Ord>(xs: &[T], ys: &[T]) -> bool
    ensures { result ≡ list_all (λ x. not (has_member T.cmp x ys.now)) xs.now }
{
    xs.iter().all(|x| !has(ys, x))
}

/// Whether a list has a member.
pub(crate) fn has<T: Ord>(list: &[T], x: &T) -> bool
    ensures { result ≡ has_member T.cmp x.now list.now }
{
    list.iter().any(|y| x.cmp(y) == Ordering::Equal)
}
