//! Labels as pairs of bytes or of strings, for code that only reads them.

ghost use Rattle.std.specs.Prelude.{◌≡◌};
ghost use Rattle.std.specs.Str.{is_utf8};
ghost use Rattle.rw_types.specs.Labels.{Label, is_text, bytes_label, text_label};

/// A label, whatever type holds its name and its value.
pub(crate) trait LabelBytes {
    ghost shown: { Self → Label };

    /// Returns the name.
    fn name(&self) -> &[u8]
        ensures { result.now ≡ (shown self.now).0 };

    /// Returns the value.
    fn value(&self) -> &[u8]
        ensures { result.now ≡ (shown self.now).1 };

    /// Returns whether both are UTF-8.
    fn is_text(&self) -> bool
        ensures { result ≡ is_text (shown self.now) };
}

fn is_utf8_text(bytes: &[u8]) -> bool
    ensures { result ≡ is_utf8 bytes.now }
{
    str::from_utf8(bytes).is_ok()
}

// A `str` is UTF-8 by its type.
fn is_utf8_string(text: &str) -> bool
    ensures { result ≡ is_utf8 text.now }
{
    let _ = text;
    true
}

impl LabelBytes for (Vec<u8>, Vec<u8>) {
    ghost shown = { bytes_label };

    fn name(&self) -> &[u8] {
        self.0.as_slice()
    }

    fn value(&self) -> &[u8] {
        self.1.as_slice()
    }

    fn is_text(&self) -> bool {
        is_utf8_text(&self.0) && is_utf8_text(&self.1)
    }
}

impl LabelBytes for (String, String) {
    ghost shown = { text_label };

    fn name(&self) -> &[u8] {
        self.0.as_bytes()
    }

    fn value(&self) -> &[u8] {
        self.1.as_bytes()
    }

    fn is_text(&self) -> bool {
        is_utf8_string(&self.0) && is_utf8_string(&self.1)
    }
}
