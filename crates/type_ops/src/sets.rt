ghost use Rattle.std.specs.Prelude.{◌≡◌, ◌++◌, not, filter, OnOk, IfOk};
ghost use Rattle.type_normal.specs.Members.{in_order, has_member, common, less};
ghost use Rattle.type_ops.specs.Sets.{put_all, either_among, both_among};

use crate::places::put_in;
use std::alloc::{AllocError, Global};
use std::cmp::Ordering;
use type_arena::{Among, List};

/// What is in one of two sets.
pub(crate) fn either<T: Ord + Drop>(
    alloc: Global,
    a: Among<T>,
    b: Among<T>,
) -> Result<Among<T>, AllocError>
    ensures { IfOk result (λ s. s ≡ either_among T.cmp a b) }
{
    match (a, b) {
        (Among::Only(xs), Among::Only(ys)) => Ok(Among::Only(all_of(alloc, xs, ys)?)),
        (Among::Only(xs), Among::AllBut(ys)) => Ok(Among::AllBut(without(ys, &xs))),
        (Among::AllBut(xs), Among::Only(ys)) => Ok(Among::AllBut(without(xs, &ys))),
        (Among::AllBut(xs), Among::AllBut(ys)) => Ok(Among::AllBut(shared(xs, &ys))),
    }
}

/// What is in both of two sets.
pub(crate) fn both<T: Ord + Drop>(
    alloc: Global,
    a: Among<T>,
    b: Among<T>,
) -> Result<Among<T>, AllocError>
    ensures { IfOk result (λ s. s ≡ both_among T.cmp a b) }
{
    match (a, b) {
        (Among::Only(xs), Among::Only(ys)) => Ok(Among::Only(shared(xs, &ys))),
        (Among::Only(xs), Among::AllBut(ys)) => Ok(Among::Only(without(xs, &ys))),
        (Among::AllBut(xs), Among::Only(ys)) => Ok(Among::Only(without(ys, &xs))),
        (Among::AllBut(xs), Among::AllBut(ys)) => Ok(Among::AllBut(all_of(alloc, xs, ys)?)),
    }
}

// The members of two lists in order, each once.
fn all_of<T: Ord + Drop>(alloc: Global, xs: List<T>, ys: List<T>) -> Result<List<T>, AllocError>
    ensures { IfOk result (λ all. all ≡ in_order T.cmp (xs ++ ys)) }
{
    let mut all = Vec::new(alloc);
    fill(&mut all, ys.into_vec())?;
    fill(&mut all, xs.into_vec())?;
    Ok(List::of(all))
}

// Puts members into a list in order, from the last one on.
fn fill<T: Ord + Drop>(all: &mut Vec<T>, mut xs: Vec<T>) -> Result<(), AllocError>
    ensures { OnOk result (all.new.items ≡ put_all T.cmp xs.items all.old.items) }
{
    while let Some(x) = xs.pop() {
        put_in(all, x)?;
    }
    Ok(())
}

// The members of a list that another one hasn't.
fn without<T: Ord + Drop>(xs: List<T>, ys: &List<T>) -> List<T>
    ensures { result ≡ less T.cmp xs ys.now }
{
    let mut kept = xs.into_vec();
    kept.retain(|x| !has(ys.as_slice(), x));
    List::of(kept)
}

// The members of a list that another one has too.
fn shared<T: Ord + Drop>(xs: List<T>, ys: &List<T>) -> List<T>
    ensures { result ≡ common T.cmp xs ys.now }
{
    let mut kept = xs.into_vec();
    kept.retain(|x| has(ys.as_slice(), x));
    List::of(kept)
}

// Whether a list has a member.
fn has<T: Ord>(list: &[T], x: &T) -> bool
    ensures { result ≡ has_member T.cmp x.now list.now }
{
    list.iter().any(|y| x.cmp(y) == Ordering::Equal)
}
