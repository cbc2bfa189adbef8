//! The words of whole numbers.

use crate::rows::none_is_wrong;
use rw_types::Word;

const TWO_TO_53: i64 = 9_007_199_254_740_992;

static WORDS: [(&str, i64, u64); 7] = [
    ("0", 0, 0),
    ("1", 1, 0x3ff0_0000_0000_0000),
    ("3", 3, 0x4008_0000_0000_0000),
    ("-2", -2, 0xc000_0000_0000_0000),
    ("2 to the 53rd less 1", TWO_TO_53 - 1, 0x433f_ffff_ffff_ffff),
    ("2 to the 53rd", TWO_TO_53, 0x4340_0000_0000_0000),
    ("2 to the 53rd below 0", -TWO_TO_53, 0xc340_0000_0000_0000),
];

static WITHOUT_WORD: [(&str, i64); 4] = [
    ("more than 2 to the 53rd", TWO_TO_53 + 1),
    ("less than that below 0", -TWO_TO_53 - 1),
    ("the greatest number", i64::MAX),
    ("the least number", i64::MIN),
];

static NO_WHOLE_NUMBERS: [(&str, u64); 5] = [
    ("minus zero", 0x8000_0000_0000_0000),
    ("a half", 0x3fe0_0000_0000_0000),
    ("2 to the 53rd and 2", 0x4340_0000_0000_0001),
    ("infinity", 0x7ff0_0000_0000_0000),
    ("NaN", 0x7ff8_0000_0000_0001),
];

fn wrong_word() -> Option<&'static str> {
    for (name, m, bits) in &WORDS {
        if Word::of_int(*m) != Some(Word(*bits)) || Word(*bits).as_int() != Some(*m) {
            return Some(name);
        }
    }
    None
}

fn number_with_word() -> Option<&'static str> {
    for (name, m) in &WITHOUT_WORD {
        if Word::of_int(*m).is_some() {
            return Some(name);
        }
    }
    None
}

fn word_with_number() -> Option<&'static str> {
    for (name, bits) in &NO_WHOLE_NUMBERS {
        if Word(*bits).as_int().is_some() {
            return Some(name);
        }
    }
    None
}

#[test]
fn words_of_whole_numbers(rt: HostRuntime) {
    none_is_wrong(&rt, wrong_word());
    none_is_wrong(&rt, number_with_word());
    none_is_wrong(&rt, word_with_number());
}
