//! What `help` tells, by the reading of the arguments.

ghost use Rattle.std.specs.Prelude.{◌≡◌, ℕ, true, false, nat_lt, length, get_or, List, [], ◌∷◌, ◌++◌, codes, Some, Ok, Err};
ghost use Rattle.std.specs.Fmt.{decimal};
ghost use Rattle.std.specs.List.{concat, list_any};
ghost use Rattle.grib_command.specs.Pages.{help_lines};
ghost use Rattle.grib_words.specs.declared.command.Command.{Command};
ghost use Rattle.grib_words.specs.Reading.{command_named, name_of, reading};
ghost use Rattle.grib_help.specs.HelpLines.{is_line_on};
ghost use Rattle.grib_help.specs.Helping.{is_empty, is_on_words, told_of_name, told_of_words, reason_at, wanted as wanted_after, deed_of, done_line, line};

/// `help` has a line on each command: it begins with `grib` and the name of the command.
pub fn help_has_a_line_on_each_command()
    ensures { (command : Command) → list_any (is_line_on command) help_lines ≡ true }
{}

/// Where arguments have no reading, what `help` tells of them names the argument at fault, by the place that the reading of the
/// arguments gives: the argument itself in quotes, or, where all are read and one more is needed, the command. It is the text
/// on a name where that stands alone and has one.
pub fn help_names_the_word_at_fault()
    ensures word { (words : List (List ℕ)) (place : ℕ) → is_empty (told_of_name words) ≡ true
        → is_on_words words ≡ false → reading words ≡ Err place → nat_lt place (length words) ≡ true
        → told_of_words words ≡ line (concat (codes "word " ∷ decimal place ∷ codes " \"" ∷ get_or words place [] ∷ codes "\": " ∷ reason_at place words ∷ [])) }
    ensures wanted { (first : List ℕ) (later : List (List ℕ)) (command : Command) (place : ℕ)
        → let words = first ∷ later in is_empty (told_of_name words) ≡ true
        → is_on_words words ≡ false → command_named first ≡ Some command → reading words ≡ Err place → nat_lt place (length words) ≡ false
        → told_of_words words ≡ concat (name_of command ∷ codes " wants " ∷ wanted_after command words ∷ codes "\n" ∷ []) }
    ensures done { (words : List (List ℕ)) (command : Command) → is_empty (told_of_name words) ≡ true
        → is_on_words words ≡ false → reading words ≡ Ok command
        → told_of_words words ≡ done_line (deed_of command words) words }
{}
