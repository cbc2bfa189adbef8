//! Standard input, as the commands read it.

use rw_decimal::exact_text;
use rw_text::ToolFault;
use rw_types::{Failed, Source, Std, read_to_end};
use std::rt::Stdin;

/// What a command expects on standard input.
#[derive(Clone, Copy)]
pub enum Form {
    /// A segment, whose records may be Snappy blocks if `may_compress` says so.
    Segment { may_compress: bool },
    /// The same in hexadecimal digits.
    Digits { may_compress: bool },
    /// Log text, whose values may be decimals if `has_decimals` says so.
    LogText { has_decimals: bool },
    Script,
}

impl Form {
    /// Returns the form of a segment, in digits or not.
    pub fn of_segment(hex: bool, may_compress: bool) -> Form {
        if hex {
            Form::Digits { may_compress }
        } else {
            Form::Segment { may_compress }
        }
    }
}

/// Standard input: read as it comes, or read whole before, so that a fault in it can be shown.
#[derive(Drop)]
pub struct Input {
    pub form: Form,
    /// The text, if a fault in it is to be shown.
    pub text: Option<Vec<u8>>,
    /// The same without decimals, if it may have them.
    exact: Option<Vec<u8>>,
}

/// Reads standard input to its end.
fn read_input(rt: &HostRuntime) -> Result<Vec<u8>, ToolFault> {
    let mut text = Vec::new(rt.alloc());
    read_to_end(rt.alloc(), &mut Std::new(rt.stdin()), &mut text)?;
    Ok(text)
}

impl Input {
    /// Reads standard input whole if `is_shown` says that a fault in it is to be shown, or if it
    /// may have decimals, and otherwise nothing of it yet.
    pub fn open(rt: &HostRuntime, form: Form, is_shown: bool) -> Result<Input, ToolFault> {
        let has_decimals = matches!(form, Form::LogText { has_decimals: true });
        if !is_shown && !has_decimals {
            return Ok(Input {
                form,
                text: None,
                exact: None,
            });
        }
        let text = read_input(rt)?;
        let exact = if has_decimals {
            Some(exact_text(rt.alloc(), &text)?)
        } else {
            None
        };
        let text = if is_shown { Some(text) } else { None };
        Ok(Input { form, text, exact })
    }

    /// Returns a reader of it from its first byte on.
    pub fn reader(&self, rt: &HostRuntime) -> Reader<'_> {
        match (&self.exact, &self.text) {
            (Some(text), _) | (None, Some(text)) => Reader::Held(text.as_slice()),
            (None, None) => Reader::Live(Std::new(rt.stdin())),
        }
    }
}

/// A reader of standard input, or of a text.
#[derive(Drop)]
pub enum Reader<'a> {
    Live(Std<Stdin>),
    Held(&'a [u8]),
}

impl Source for Reader<'_> {
    ghost use Rattle.std.specs.Prelude.{None, false};
    ghost use Rattle.rwship.specs.Readers.{has_failed};

    ghost remaining = { λ _. None };

    ghost has_failed = { has_failed };

    ghost is_sure = { λ _. false };

    fn read(&mut self, buf: &mut [u8]) -> Result<usize, Failed> {
        match self {
            Reader::Live(input) => input.read(buf),
            Reader::Held(text) => text.read(buf),
        }
    }
}
