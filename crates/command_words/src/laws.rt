//! What holds of commands. Each law is the contract of a function that does nothing.
ghost use Rattle.std.specs.Prelude.{◌≡◌, ℕ, List, [], ◌∷◌, ◌++◌, None, true, is_some};
ghost use Rattle.command_words.specs.Command.{Part, command, option_of, said};

/// An option and its value are one word, with `=` (61) between them, or two, wherever they stand.
#[tactic(auto, using(crate::proofs::Places::one_word_or_two))]
pub fn an_option_and_its_value_are_one_word_or_two()
    ensures { (before after : List (List ℕ)) (name value : List ℕ) → is_some (option_of name) ≡ true
        → command (before ++ (name ++ 61 ∷ value) ∷ after) ≡ command (before ++ name ∷ value ∷ after) }
{}

/// Parts say the same in whatever order they stand.
#[tactic(auto, using(crate::proofs::Places::either_order))]
pub fn the_order_of_parts_does_not_matter()
    ensures { (first second : List Part) → said (first ++ second) ≡ said (second ++ first) }
{}

/// No word of a command is empty.
#[tactic(auto, using(crate::proofs::Places::no_empty_word))]
pub fn no_word_is_empty()
    ensures { (before after : List (List ℕ)) → command (before ++ [] ∷ after) ≡ None }
{}
