//! Laws: what is printed is read back as the same value, and each text stands for one value. Each
//! function has an empty body: its contract is the law.

ghost use Rattle.std.specs.Prelude.{◌≡◌, ◌^◌, ◌<◌, ℕ, ℤ, List, FitsSigned, decimal};
ghost use Rattle.std.specs.Fmt.{signed_decimal};
ghost use Rattle.std.proofs.Common.{w64};
ghost use Rattle.rw_types.specs.Labels.{Labels};
ghost use Rattle.rw_text.specs.LabelText.{labels_text};
ghost use Rattle.rw_text.specs.LineText.{Line, IsLine};
ghost use Rattle.rw_text.specs.Numbers.{IsNumber, IsInteger};
ghost use Rattle.rw_text.specs.RecordLines.{IsRecordOf};
ghost use Rattle.rw_text.specs.ValueText.{IsValue, value_text};

/// Law: the decimal digits of a number below 2^64 are read back as that number.
pub fn number_is_read()
    ensures { (n : ℕ) → n < 2 ^ 64 → IsNumber (decimal n) n }
{}

/// Law: the decimal text of a signed number of 64 bits is read back as that number.
pub fn integer_is_read()
    ensures { (z : ℤ) → FitsSigned w64 z → IsInteger (signed_decimal z) z }
{}

/// Law: the text of a sample's value is read back as that value.
pub fn value_is_read()
    ensures { (word : ℕ) → word < 2 ^ 64 → IsValue (value_text word) word }
{}

/// Law: a text stands for at most one number, and for at most one signed number.
pub fn number_is_one()
    ensures number { (text : List ℕ) (m n : ℕ) → IsNumber text m → IsNumber text n → m ≡ n }
    ensures integer { (text : List ℕ) (y z : ℤ) → IsInteger text y → IsInteger text z → y ≡ z }
{}

/// Law: a text stands for at most one sample's value.
pub fn value_is_one()
    ensures { (text : List ℕ) (v w : ℕ) → v < 2 ^ 64 → w < 2 ^ 64 → IsValue text v
        → IsValue text w → v ≡ w }
{}

/// Law: a text stands for at most one list of labels.
pub fn labels_are_one()
    ensures { (ls ms : Labels) → labels_text ls ≡ labels_text ms → ls ≡ ms }
{}

/// Law: a line of log text stands for at most one record.
pub fn line_is_one()
    ensures { (text : List ℕ) (l m : Line) → IsLine text l → IsLine text m → l ≡ m }
{}

/// Law: a line of log text stands for at most one record.
pub fn record_is_one()
    ensures { (line rec other : List ℕ) → IsRecordOf line rec → IsRecordOf line other
        → rec ≡ other }
{}
