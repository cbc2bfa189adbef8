//! Values as decimals. The words are those that IEEE 754 gives, and the decimals those that Rust
//! and Python print as the shortest ones.

use crate::rows::none_is_wrong;
use rw_decimal::{exact_text, push_decimal};
use rw_types::Word;
use std::alloc::Global;
use std::test::Fail;

/// A word and its text, which is printed of it and read as it.
static WORDS: [(u64, &str); 18] = [
    (0x3fd0_0000_0000_0000, "0.25"),
    (0x3fb9_9999_9999_999a, "0.1"),
    (0x3fd3_3333_3333_3334, "0.30000000000000004"),
    (0xbff8_0000_0000_0000, "-1.5"),
    (0x40fe_240c_9fbe_76c9, "123456.789"),
    (0x3e84_21f5_f40d_8376, "1.5e-7"),
    (0x44b5_2d02_c7e1_4af6, "1e23"),
    (0x0000_0000_0000_0001, "5e-324"),
    (0x000f_ffff_ffff_ffff, "2.225073858507201e-308"),
    (0x7fef_ffff_ffff_ffff, "1.7976931348623157e308"),
    (0x4340_0000_0000_0001, "9007199254740994.0"),
    (0x8000_0000_0000_0000, "-0.0"),
    (0x0000_0000_0000_0000, "0"),
    (0xc014_0000_0000_0000, "-5"),
    (0x4340_0000_0000_0000, "9007199254740992"),
    // an infinity, and NaNs: the one that says that a series has ended, and one with a sign
    (0x7ff0_0000_0000_0000, "0x7ff0000000000000"),
    (0x7ff0_0000_0000_0002, "0x7ff0000000000002"),
    (0xfff8_0000_0000_0000, "0xfff8000000000000"),
];

/// Log text with decimals, and the same without.
static TEXTS: [(&str, &str); 10] = [
    ("", ""),
    ("sample 1 2 0.5", "sample 1 2 0x3fe0000000000000\n"),
    ("sample 1 2 4.0\n\n", "sample 1 2 4\n\n"),
    ("sample 1 2 1E2\n", "sample 1 2 100\n"),
    (
        "series 1 {a=\"x 1 0.5\"}\nsample 1 -2 -0.5\n",
        "series 1 {a=\"x 1 0.5\"}\nsample 1 -2 0xbfe0000000000000\n",
    ),
    // the digits of a record, and of a word
    ("raw 1e5\n", "raw 1e5\n"),
    (
        "sample 1 2 0x3fe0000000000000\n",
        "sample 1 2 0x3fe0000000000000\n",
    ),
    // no decimals
    (
        "sample 1 2 inf\nsample 1 2 nan\n",
        "sample 1 2 inf\nsample 1 2 nan\n",
    ),
    ("sample 1 2 1e999\n", "sample 1 2 1e999\n"),
    (
        "sample 1 2 0.5 \nsample 1 0.5\n",
        "sample 1 2 0.5 \nsample 1 0.5\n",
    ),
];

/// Returns whether a word is printed as this text.
fn is_printed(alloc: Global, word: u64, text: &str) -> bool {
    let mut out = Vec::new(alloc);
    push_decimal(&mut out, Word(word)).is_ok() && out.as_slice() == text.as_bytes()
}

/// Returns whether log text is this one without decimals.
fn is_exact(alloc: Global, text: &[u8], exact: &[u8]) -> bool {
    match exact_text(alloc, text) {
        Ok(out) => out.as_slice() == exact,
        Err(_) => false,
    }
}

/// Returns whether the text of a word, as the value of a sample, is that of the word without
/// decimals.
fn is_read(alloc: Global, word: u64, text: &str) -> bool {
    let mut line = Vec::new(alloc);
    let mut exact = Vec::new(alloc);
    line.extend_from_slice(b"sample 1 2 ").is_ok()
        && line.extend_from_slice(text.as_bytes()).is_ok()
        && exact.extend_from_slice(b"sample 1 2 ").is_ok()
        && rw_text::push_value(&mut exact, Word(word)).is_ok()
        && exact.extend_from_slice(b"\n").is_ok()
        && is_exact(alloc, &line, &exact)
}

/// Returns the text of the first word that is printed or read as another one.
fn wrong_word(alloc: Global, rows: &[(u64, &'static str)]) -> Option<&'static str> {
    for (word, text) in rows {
        if !is_printed(alloc, *word, text) || !is_read(alloc, *word, text) {
            return Some(text);
        }
    }
    None
}

/// Returns the first text that is not as it is to be without decimals.
fn wrong_text(alloc: Global, rows: &[(&'static str, &'static str)]) -> Option<&'static str> {
    for (text, exact) in rows {
        if !is_exact(alloc, text.as_bytes(), exact.as_bytes()) {
            return Some(text);
        }
    }
    None
}

#[test]
fn decimals_are_printed_and_read(rt: HostRuntime) -> Result<(), Fail> {
    none_is_wrong(&rt, wrong_word(rt.alloc(), &WORDS));
    Ok(())
}

#[test]
fn log_text_has_words_in_place_of_decimals(rt: HostRuntime) -> Result<(), Fail> {
    none_is_wrong(&rt, wrong_text(rt.alloc(), &TEXTS));
    Ok(())
}
