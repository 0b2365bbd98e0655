ghost use Rattle.std.specs.Prelude.{◌≡◌};
ghost use Rattle.type_ops.specs.Lists.{name_place};

use std::cmp::Ordering;
use type_arena::{Label, TypeRef};

/// Where the field of a name is among fields in order, or else, as an error, where it would go.
pub(crate) fn place_of_name(fields: &[(Label, TypeRef)], name: &Label) -> Result<usize, usize>
    ensures { result ≡ name_place name.now fields.now }
{
    for (i, field) in fields.iter().enumerate() {
        match name.cmp(&field.0) {
            Ordering::Less => return Err(i),
            Ordering::Equal => return Ok(i),
            Ordering::Greater => {}
        }
    }
    Err(fields.len())
}
