ghost use Rattle.std.specs.Prelude.{◌≡◌};
ghost use Rattle.type_ops.specs.Changed.{may_be_written as may_be};

use type_arena::Label;

/// Which fields of tables that aren't frozen may have been written.
#[derive(Debug, Drop)]
pub(crate) enum Written {
    /// All of them.
    AnyField,
    /// Those of one name.
    Named(Label),
}

/// Whether a field of a name may have been written.
pub(crate) fn may_be_written(written: &Written, name: &Label) -> bool
    ensures { result ≡ may_be written.now name.now }
{
    match written {
        Written::AnyField => true,
        Written::Named(own) => *name == *own,
    }
}
