//! Lines of a script, read.

ghost use Rattle.std.specs.Prelude.{◌≡◌, ℕ, List, codes, Some, Err, IfOk, MatchOption};
ghost use Rattle.rw_text.specs.HexText.{read_digits};
ghost use Rattle.rw_machine.specs.declared.event.How.{How};
ghost use Rattle.rw_text.specs.RecordLines.{IsRecordOf};
ghost use Rattle.rw_replay.specs.declared.words.NumberedWord.{NumberedWord};
ghost use Rattle.rw_replay.specs.ScriptText.{Order, IsOrder, IsWordAnd, IsArrival, IsCount, numbered_text, order_of, order_of_event};

use crate::command::Command;
use crate::words::{BareWord, NumberedWord, read_how};
use rw_machine::Event;
use rw_text::{TextFault, read_digits, read_number, read_record, split_at_byte};
use rw_wal_tail::Piece;
use std::alloc::Global;

/// Returns what follows `log `.
fn read_log(alloc: Global, line: &[u8]) -> Result<Command, TextFault>
    ensures ok { IfOk result (λ c. IsWordAnd (codes "log") line.now (order_of c)) }
    ensures err { result ≡ Err TextFault.NotOfForm → (rec : List ℕ) → IsRecordOf line.now rec → ⊥ }
{
    let rec = read_record(alloc, line)?;
    Ok(Command::Log(rec))
}

/// Returns what follows `feed `.
fn read_feed(alloc: Global, digits: &[u8]) -> Result<Command, TextFault>
    ensures ok { IfOk result (λ c. IsWordAnd (codes "feed") digits.now (order_of c)) }
    ensures err { result ≡ Err TextFault.NotOfForm → (bytes : List ℕ)
        → read_digits digits.now ≡ Some bytes → ⊥ }
{
    match read_digits(alloc, digits)? {
        Some(bytes) => Ok(Command::Event(Event::Feed(Piece::Bytes(bytes)))),
        None => Err(TextFault::NotOfForm),
    }
}

/// Returns what follows `arrive `.
fn read_arrival(text: &[u8]) -> Option<Event>
    ensures { MatchOption result
        ((request : ℕ) (how : How) → IsArrival text.now request how → ⊥)
        (λ e. IsWordAnd (codes "arrive") text.now (order_of_event e)) }
{
    let Some((number, how)) = split_at_byte(text, b' ') else {
        return None;
    };
    let Some(request) = read_number(number) else {
        return None;
    };
    let Some(how) = read_how(how) else {
        return None;
    };
    Some(Event::Arrive(request, how))
}

/// Returns a word and the number after it.
fn read_numbered(word: &[u8], number: &[u8]) -> Option<Event>
    ensures { MatchOption result
        ((w : NumberedWord) (n : ℕ) → word.now ≡ numbered_text w → IsCount number.now n → ⊥)
        (λ e. IsWordAnd word.now number.now (order_of_event e)) }
{
    let Some(word) = NumberedWord::read(word) else {
        return None;
    };
    let Some(number) = read_number(number) else {
        return None;
    };
    Some(word.event(number))
}

/// Returns a word and what follows it.
fn read_word_and(alloc: Global, word: &[u8], rest: &[u8]) -> Result<Command, TextFault>
    ensures ok { IfOk result (λ c. IsWordAnd word.now rest.now (order_of c)) }
    ensures err { result ≡ Err TextFault.NotOfForm → (o : Order) → IsWordAnd word.now rest.now o
        → ⊥ }
{
    if word == b"log".as_slice() {
        return read_log(alloc, rest);
    }
    if word == b"feed".as_slice() {
        return read_feed(alloc, rest);
    }
    if word == b"arrive".as_slice() {
        return match read_arrival(rest) {
            Some(event) => Ok(Command::Event(event)),
            None => Err(TextFault::NotOfForm),
        };
    }
    match read_numbered(word, rest) {
        Some(event) => Ok(Command::Event(event)),
        None => Err(TextFault::NotOfForm),
    }
}

/// Reads a script line, without its LF: `log LINE`, `feed HEX`, `arrive K plain`, `arrive K busy`,
/// `arrive K short`, one of the words `segment`, `place`, `restart`, `close`, `kill` and `settle`,
/// or `flush`, `take`, `freeze`, `send`, `reply`, `lost` or `reshard` and a number. The record of a
/// `log` line has at most 16 MiB.
pub fn read_command(alloc: Global, line: &[u8]) -> Result<Command, TextFault>
    ensures ok { IfOk result (λ c. IsOrder line.now (order_of c)) }
    ensures err { result ≡ Err TextFault.NotOfForm → (o : Order) → IsOrder line.now o → ⊥ }
{
    if let Some((word, rest)) = split_at_byte(line, b' ') {
        return read_word_and(alloc, word, rest);
    }
    match BareWord::read(line) {
        Some(word) => Ok(word.command()),
        None => Err(TextFault::NotOfForm),
    }
}
