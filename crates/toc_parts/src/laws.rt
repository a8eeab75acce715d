//! Laws of the definitions, each the contract of a function that does nothing.
ghost use Rattle.std.specs.Prelude.{ℕ, ◌<◌, ◌^◌, ℤ, List, length, Option};
ghost use Rattle.std.specs.Int.{w32, w64};
ghost use Rattle.std.specs.Option.{ForSome};
ghost use Rattle.copy_text.specs.Texts.{IsText};
ghost use Rattle.dump_ports.specs.Moment.{IsPart};
ghost use Rattle.toc_parts.specs.declared.fault.FieldFault.TheVariants.{Short};
ghost use Rattle.toc_parts.specs.Fields.{byte, number, integer, span, string, text_length};
ghost use Rattle.toc_parts.specs.Laws.{Lawful, TakesByte};
ghost use Rattle.toc_parts.specs.Parts.{listed};

/// What each field reads is spelled so; what is spelled so is read, whatever follows; and what is written for a value
/// that fits spells it. Each takes a byte at least.
pub fn fields_have_their_laws()
    ensures byte { Lawful (byte Short) }
    ensures four { Lawful (number Short w32) }
    ensures eight { Lawful (number Short w64) }
    ensures integer { Lawful (integer Short) }
    ensures length { Lawful text_length }
    ensures span { Lawful span }
    ensures string { Lawful string }
    ensures strings { Lawful (listed string) }
    ensures integer_takes { TakesByte (integer Short) }
    ensures string_takes { TakesByte string }
{}

/// Which values can be written: numbers in their range, and texts shorter than 2^32 bytes.
pub fn fields_fit()
    ensures four { (n : ℕ) → n < 2 ^ 32 → (number Short w32).Fits n }
    ensures eight { (n : ℕ) → n < 2 ^ 64 → (number Short w64).Fits n }
    ensures integer { (n : ℤ) → IsPart n → (integer Short).Fits n }
    ensures string { (v : Option (List ℕ)) → ForSome v IsText → ForSome v (λ t. length t < 2 ^ 32) → string.Fits v }
{}
