//! The usual bounds of sequences.
ghost use Rattle.std.specs.Prelude.{◌≡◌};
ghost use Rattle.std.specs.Ordering.{int_eq};
ghost use Rattle.ddl_spelling.specs.Sequences.{usual_min, usual_max};

use cat_model::SequenceKind;

/// What NO MINVALUE stands for: 1 where the sequence rises, by a step that isn't negative, and the type's least number
/// where it falls.
#[tactic(auto, unfolding(crate::specs::Sequences::usual_min))]
pub fn usual_min(kind: SequenceKind, step: i64) -> i64
    ensures { result ≡ usual_min kind step }
{
    match kind {
        _ if step >= 0 => 1,
        SequenceKind::SmallInt => i64::from(i16::MIN),
        SequenceKind::Integer => i64::from(i32::MIN),
        SequenceKind::BigInt => i64::MIN,
    }
}

/// What NO MAXVALUE stands for: the type's greatest number where the sequence rises, by a step that isn't negative, and
/// -1 where it falls.
#[tactic(auto, unfolding(crate::specs::Sequences::usual_max))]
pub fn usual_max(kind: SequenceKind, step: i64) -> i64
    ensures { result ≡ usual_max kind step }
{
    match kind {
        _ if step < 0 => -1,
        SequenceKind::SmallInt => i64::from(i16::MAX),
        SequenceKind::Integer => i64::from(i32::MAX),
        SequenceKind::BigInt => i64::MAX,
    }
}

/// Whether NO MINVALUE stands for the number.
pub fn is_usual_min(kind: SequenceKind, step: &i64, number: &i64) -> bool
    ensures { result ≡ int_eq number.now (usual_min kind step.now) }
{
    *number == usual_min(kind, *step)
}

/// Whether NO MAXVALUE stands for the number.
pub fn is_usual_max(kind: SequenceKind, step: &i64, number: &i64) -> bool
    ensures { result ≡ int_eq number.now (usual_max kind step.now) }
{
    *number == usual_max(kind, *step)
}
