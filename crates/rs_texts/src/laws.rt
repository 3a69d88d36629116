//! What joined texts are, said of the definition.

ghost use Rattle.std.specs.Prelude.{◌≡◌, ◌∷◌, ◌++◌, [], ℕ, List};
ghost use Rattle.rs_texts.specs.Joined.{ended, joined};

/// One text is joined to itself.
pub fn one_text_is_itself()
    ensures { (text : List ℕ) → joined (text ∷ []) ≡ text }
{}

/// Behind texts whose lines are ended the next one follows.
pub fn ended_lines_follow()
    ensures { (texts : List (List ℕ)) (text : List ℕ) → joined (texts ++ (text ∷ [])) ≡ ended (joined texts) ++ text }
{}
