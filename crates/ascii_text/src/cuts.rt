//! A text cut in two where a byte first stands.

ghost use Rattle.std.specs.Prelude.{◌≡◌, ◌≢◌, ℕ, List, ◌∷◌, ◌++◌, All, MatchOption, Some};
ghost use Rattle.std.specs.Option.{option_copied};
ghost use Rattle.ascii_text.specs.Cuts.{cut};

/// What stands before the first byte `at`, and what stands after it, if there is such a byte.
pub fn cut(text: &[u8], at: u8) -> (&[u8], Option<&[u8]>)
    ensures before { result.0.now ≡ (cut at text.now).before }
    ensures after { option_copied result.1 ≡ (cut at text.now).after }
{
    for (index, byte) in text.iter().enumerate() {
        if *byte == at {
            return (&text[..index], Some(&text[index + 1..]));
        }
    }
    (text, None)
}

/// A cut parts the text at its first such byte: the parts give the text again, the first part is
/// free of the byte, and no other two parts are so.
pub fn cut_is_at_the_first()
    ensures parts { (at : ℕ) (text : List ℕ)
        → MatchOption (cut at text).after ((cut at text).before ≡ text)
        (λ rest. (cut at text).before ++ (at ∷ rest) ≡ text) }
    ensures apart { (at : ℕ) (text : List ℕ) → All (λ byte. byte ≢ at) (cut at text).before }
    ensures each { (at : ℕ) (front rest : List ℕ) → All (λ byte. byte ≢ at) front
        → ((cut at (front ++ (at ∷ rest))).before ≡ front)
        × ((cut at (front ++ (at ∷ rest))).after ≡ Some rest) }
{}
