// Which words are numbers.
ghost use Rattle.std.specs.Prelude.{◌≡◌, ◌≤◌, ◌<◌, ◌^◌, ◌↔◌, ℕ, Some, decimal};
ghost use Rattle.program_words.specs.Asked.{number_up_to};
ghost use Rattle.program_words.specs.Words.{Word};

/// A word is read as a number exactly where it is the number's decimal spelling and the number is in range.
pub fn a_number_is_its_spelling()
    ensures { (most number : ℕ) (word : Word) → most < 2 ^ 64 → (number_up_to most word ≡ Some number) ↔ ((word ≡ decimal number) × (number ≤ most)) }
{}
