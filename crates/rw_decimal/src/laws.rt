//! Laws: what is printed is read again. Each function has an empty body: its contract is the law.

ghost use Rattle.std.specs.Prelude.{◌≡◌, ◌^◌, ◌<◌, ℕ, List};
ghost use Rattle.rw_decimal.specs.Decimals.{exact_value, IsDecimalText};
ghost use Rattle.rw_text.specs.ValueText.{value_text};

/// Law: what is printed of a word with decimals is read as that word: log text has its text in
/// place of it.
pub fn decimal_is_read()
    ensures { (word : ℕ) (text : List ℕ) → word < 2 ^ 64 → IsDecimalText word text
        → exact_value text ≡ value_text word }
{}
