ghost use Rattle.std.specs.Prelude.{◌≡◌, OnOk};
ghost use Rattle.type_normal.specs.Members.{put as put_member};
ghost use Rattle.type_ops.specs.Places.{place};

use std::alloc::AllocError;
use std::cmp::Ordering;

// Where a member goes in a list in order: before the first that comes after it, and nowhere if it is there.
fn place_in<T: Ord>(list: &[T], x: &T) -> Option<usize>
    ensures { result ≡ place (T.cmp x.now) list.now }
{
    for (i, y) in list.iter().enumerate() {
        match x.cmp(y) {
            Ordering::Less => return Some(i),
            Ordering::Equal => return None,
            Ordering::Greater => {}
        }
    }
    Some(list.len())
}

/// Puts a member into a list in order, unless it is there.
pub(crate) fn put_in<T: Ord + Drop>(list: &mut Vec<T>, x: T) -> Result<(), AllocError>
    ensures { OnOk result (list.new.items ≡ put_member T.cmp x list.old.items) }
{
    if let Some(at) = place_in(list.as_slice(), &x) {
        list.insert(at, x)?;
    }
    Ok(())
}
