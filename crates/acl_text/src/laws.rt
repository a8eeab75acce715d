//! Laws of the format, each the contract of a function that does nothing.
ghost use Rattle.std.specs.Prelude.{◌≡◌, ◌↔◌, ℕ, List, Some};
ghost use Rattle.copy_text.specs.Texts.{IsText};
ghost use Rattle.acl_text.specs.declared.list.AclItem.{AclItem};
ghost use Rattle.acl_text.specs.Acls.{acl_of, spell_acl, IsAcl};
ghost use Rattle.acl_text.specs.Spells.{SpellsAcl};
ghost use Rattle.acl_text.specs.Examples.{Lists, NoLists, Written};

use copy_text::laws::tests_are_exact;

/// Reading a text gives a list exactly where the text spells it.
pub fn reading_is_exact()
    ensures { (items : List AclItem) (text : List ℕ) → (acl_of text ≡ Some items) ↔ SpellsAcl items text }
{
    tests_are_exact();
}

/// What is written for a list of rights reads as the list.
pub fn written_list_reads()
    ensures { (items : List AclItem) → IsAcl items → acl_of (spell_acl items) ≡ Some items }
{
    tests_are_exact();
}

/// What is written for a list of rights is a text.
pub fn written_list_is_a_text()
    ensures { (items : List AclItem) → IsAcl items → IsText (spell_acl items) }
{}

/// What a text spells can be written.
pub fn read_list_can_be_written()
    ensures { (text : List ℕ) (items : List AclItem) → acl_of text ≡ Some items → IsAcl items }
{
    tests_are_exact();
}

/// Worked examples, computed from the definitions.
pub fn worked_examples()
    ensures lists { Lists }
    ensures others { NoLists }
    ensures written { Written }
{}
