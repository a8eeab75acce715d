//! Laws of the definitions, each the contract of a function that does nothing.
ghost use Rattle.std.specs.Prelude.{◌≡◌, ◌⊎◌, ◌↔◌, ℕ, List, Some, None, Ok, Err};
ghost use Rattle.command_line.specs.declared.options.Tool.{Tool};
ghost use Rattle.command_line.specs.declared.options.Opt.{Opt};
ghost use Rattle.command_line.specs.declared.options.Takes.TheVariants as taken;
ghost use Rattle.command_line.specs.declared.options.ValueKind.TheVariants as kinds;
ghost use Rattle.command_line.specs.declared.usage.UsageFault.{UsageFault};
ghost use Rattle.command_line.specs.Reading.{Plain, words_read};
ghost use Rattle.command_line.specs.Mentions.{fault_of, values_of};
ghost use Rattle.command_line.specs.Commands.{patterns_of, command_of};
ghost use Rattle.command_line.specs.Usage.{said_by, fault_with, usage_of, command_from};
ghost use Rattle.command_line.specs.Complete.{SaysTaken, HasNeeded, texts_of};
ghost use Rattle.command_line.specs.Options.{takes};
ghost use Rattle.command_line.specs.Sayings.{Saying, AreTaken, line_of, said_from};
ghost use Rattle.command_line.specs.FirstFault.{FailsFirst, EndsEarly};
ghost use Rattle.command_line.specs.Examples.{WorkedExamples};

/// Whatever the tables describe can be said: for options that a tool takes, in any order and number, with values that
/// they take, and for any other words, there are words that say these and nothing else. Where the checks let them
/// pass, they read as the command of what they say.
pub fn what_the_tables_describe_can_be_said()
    ensures said { (tool : Tool) (sayings : List Saying) (others : List (List ℕ)) → AreTaken tool sayings
        → said_by tool (line_of tool sayings others) ≡ said_from tool 1 sayings others }
    ensures reads { (tool : Tool) (sayings : List Saying) (others : List (List ℕ)) → AreTaken tool sayings
        → usage_of (line_of tool sayings others) ≡ None
        → command_from (line_of tool sayings others) ≡ Ok (command_of tool (said_from tool 1 sayings others)) }
{}

/// Of the words that can't be read the first is named: it fails whatever follows it, and the words before it don't
/// fail; or the words end before a value.
pub fn the_first_word_that_fails_is_named()
    ensures { (tool : Tool) (words : List (List ℕ)) (fault : UsageFault) → fault_of (words_read tool Plain 1 words) ≡ Some fault
        → FailsFirst tool Plain 1 words fault ⊎ EndsEarly 1 words fault }
{}

/// Whatever words say of an option is what the tool takes of it, with a value that it takes.
pub fn what_is_said_is_taken()
    ensures { (tool : Tool) (words : List (List ℕ)) → SaysTaken tool (said_by tool words) }
{}

/// Each value of an option that takes patterns is a pattern, so that none is left out of a command.
pub fn each_pattern_is_kept()
    ensures { (tool : Tool) (option : Opt) (words : List (List ℕ)) → takes tool option ≡ taken.Value kinds.Pattern
        → texts_of (patterns_of (values_of option (said_by tool words))) ≡ values_of option (said_by tool words) }
{}

/// Words without a fault have the folders, the files and the number that their tool needs.
pub fn what_is_needed_is_there()
    ensures { (tool : Tool) (words : List (List ℕ)) → fault_with tool words ≡ None → HasNeeded tool (said_by tool words) }
{}

/// A list has a fault exactly where it asks for no command, and it is that fault.
pub fn a_fault_or_a_command()
    ensures { (words : List (List ℕ)) (fault : UsageFault) → (usage_of words ≡ Some fault) ↔ (command_from words ≡ Err fault) }
{}

/// Worked examples, computed from the definitions.
pub fn the_definitions_meet_the_examples()
    ensures { WorkedExamples }
{}
