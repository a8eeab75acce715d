//! Lists with something in them.
ghost use Rattle.std.specs.Prelude.{◌≡◌};
ghost use Rattle.serial_restore.specs.Ways.{is_any};

/// Whether a list has any items.
pub(crate) fn is_any<T>(items: &[T]) -> bool
    ensures { result ≡ is_any items.now }
{
    matches!(items, [_, ..])
}
