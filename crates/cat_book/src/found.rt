//! Rows at places.
ghost use Rattle.std.specs.Prelude.{◌≡◌, option_map, option_and_then};
ghost use Rattle.std.specs.List.{slice_get};

/// The row at a place, if there is one.
pub(crate) fn row_at<R>(rows: &[R], place: Option<usize>) -> Option<&R>
    ensures { option_map (λ r. r.now) result ≡ option_and_then (slice_get rows.now) place }
{
    match place {
        Some(place) => rows.get(place),
        None => None,
    }
}
