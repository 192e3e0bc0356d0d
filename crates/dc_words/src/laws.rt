//! Laws over the definitions alone.

ghost use Rattle.std.specs.Prelude.{◌≡◌, ℕ, false, List, IsUtf8, option_and_then};
ghost use Rattle.std.specs.List.{All};
ghost use Rattle.dc_words.specs.CommandOfWords.{command_of, given, made};
ghost use Rattle.dc_words.specs.WordKinds.{given_of_sorted, sorted};

/// The definition without `clap`, by what each word is. `clap` refuses exactly those lists among which a word is refused, those with
/// the flag twice, and those without a plain word or with more than three; of the others it gives the plain words in their order, and
/// whether the flag is there.
pub fn words_by_kind()
    ensures given { (words : List (List ℕ)) → All IsUtf8 words → given words ≡ given_of_sorted (sorted false words) }
    ensures command { (words : List (List ℕ)) → All IsUtf8 words
        → command_of words ≡ option_and_then made (given_of_sorted (sorted false words)) }
{}
