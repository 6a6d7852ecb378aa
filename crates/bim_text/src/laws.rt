//! What callers may rely on beyond one call.
ghost use Rattle.std.specs.Prelude.{◌≡◌, ℕ, List, IsTrue, true};
ghost use Rattle.std.specs.List.{list_all};
ghost use Rattle.bim_text.specs.declared.decimal.Decimal.{Decimal};
ghost use Rattle.bim_text.specs.ScaledNumbers.{SameValue};
ghost use Rattle.bim_text.specs.NumberSpellings.{Spelling, IsNumber, written};
ghost use Rattle.bim_text.specs.Decimals.{Reads, value_of};
ghost use Rattle.bim_text.specs.TextSpellings.{is_plain, text_of_spelling};

/// A number has one spelling by its parts, so a decimal that is read is the value that any spelling of its bytes writes.
pub fn one_value()
    ensures spelling { (text : List ℕ) (s t : Spelling) → IsNumber s text → IsNumber t text → s ≡ t }
    ensures value { (text : List ℕ) (d : Decimal) (s : Spelling) → Reads text d → IsNumber s text
        → SameValue (value_of d) (written s) }
{}

/// A text of ASCII bytes from 32 on without apostrophe and backslash spells itself.
pub fn plain_texts()
    ensures { (text : List ℕ) → list_all is_plain text ≡ true → text_of_spelling text ≡ text }
{}

/// Bytes are read to one decimal.
pub fn one_decimal()
    ensures { (text : List ℕ) (d e : Decimal) → Reads text d → Reads text e
        → (d.negative ≡ e.negative) × (d.digits ≡ e.digits) × (d.exp ≡ e.exp) }
{}
