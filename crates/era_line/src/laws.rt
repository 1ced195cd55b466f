//! What holds of the spelling of lines and words alone: what is written is read back, and a text spells one thing.

ghost use Rattle.std.specs.Prelude.{◌≡◌, ◌≢◌, ◌<◌, ◌^◌, ℕ, List, [], ◌∷◌, ◌++◌, All, decimal};
ghost use Rattle.era_line.specs.Lines.{HasNo, lines_of, lines_text};
ghost use Rattle.era_line.specs.Messages.{word_of_message};
ghost use Rattle.era_line.specs.StatusLine.{AtMostOneStatus};
ghost use Rattle.era_line.specs.TableLine.{AtMostOneLine};
ghost use Rattle.era_line.specs.Words.{spaced, words_of};
ghost use Rattle.era_line.specs.declared.message.Message.{Message};

/// The first line of a text is what stands before its first LF, or the whole of it where it has none.
pub fn first_line_ends_at_its_lf()
    ensures ended { (line rest : List ℕ) → HasNo 10 line
        → lines_of (line ++ 10 ∷ rest) ≡ line ∷ lines_of rest }
    ensures last { (line : List ℕ) → HasNo 10 line → line ≢ [] → lines_of line ≡ line ∷ [] }
{}

/// Lines are read back from the text that is made of them, and a text that ends with an LF is made of its lines.
pub fn lines_are_read_back()
    ensures back { (lines : List (List ℕ)) → All (λ line. HasNo 10 line) lines
        → lines_of (lines_text lines) ≡ lines }
    ensures text { (text : List ℕ)
        → lines_text (lines_of (text ++ 10 ∷ [])) ≡ text ++ 10 ∷ [] }
{}

/// The first word of a line is what stands before its first space, or the whole of it where it has none.
pub fn first_word_ends_at_its_space()
    ensures ended { (word rest : List ℕ) → HasNo 32 word
        → words_of (word ++ 32 ∷ rest) ≡ word ∷ words_of rest }
    ensures last { (word : List ℕ) → HasNo 32 word → words_of word ≡ word ∷ [] }
{}

/// Words are read back from the line that is made of them, and a line is made of its words, none of which has a space.
pub fn words_are_read_back()
    ensures back { (words : List (List ℕ)) → words ≢ [] → All (λ word. HasNo 32 word) words
        → words_of (spaced words) ≡ words }
    ensures line { (line : List ℕ) → spaced (words_of line) ≡ line }
    ensures apart { (line : List ℕ) → All (λ word. HasNo 32 word) (words_of line) }
{}

/// A decimal spells one number, and has digits alone: no byte below them, as a space or an LF.
pub fn one_number()
    ensures same { (one other : ℕ) → one < 2 ^ 64 → other < 2 ^ 64
        → decimal one ≡ decimal other → one ≡ other }
    ensures digits { (separator number : ℕ) → separator < 48 → number < 2 ^ 64
        → HasNo separator (decimal number) }
{}

/// A text is at most one message.
pub fn one_message()
    ensures { (one other : Message) → word_of_message one ≡ word_of_message other → one ≡ other }
{}

/// A text is at most one status line.
pub fn one_status_line()
    ensures { AtMostOneStatus }
{}

/// A text is at most one table line.
pub fn one_table_line()
    ensures { AtMostOneLine }
{}
