//! The fields that are added to requests, with a token that is read from a file.

ghost use Rattle.std.specs.Prelude.{◌≡◌, ◌++◌, ◌∷◌, [], List, ℕ, IfOk};
ghost use Rattle.rw_fields.specs.Fields.{bearer};
ghost use Rattle.rw_tcp.specs.Added.{HasToken};

use rw_fields::ExtraFields;
use std::alloc::{AllocError, AllocGlobal, Global};
use std::fs;
use std::io::{self, ErrorKind};
use std::marker::Model;
use std::rt::Files;

/// Why there are no fields to add.
#[derive(Drop)]
pub enum AccessError {
    /// Memory ran out.
    OutOfMemory,
    /// The token file cannot be read.
    Unreadable(io::Error),
    /// The token file has no token that can be sent: it is empty, too long, or has a control
    /// character, or the fields have `Authorization` already.
    NotSent,
}

impl From<AllocError> for AccessError {
    fn from(_e: AllocError) -> AccessError {
        AccessError::OutOfMemory
    }
}

/// What is added to the requests of transports: fields and, if there is a token file, its text as
/// `Authorization: Bearer TEXT`. Nothing prints it. Contracts see the fields.
#[derive(Drop)]
pub struct Access {
    alloc: Global,
    headers: ExtraFields,
    /// The path of the token file; empty if there is none.
    token_file: String,
}

impl Model for Access {
    ghost use Rattle.std.specs.Prelude.{List};
    ghost use Rattle.rw_fields.specs.Fields.{NameValue};

    ghost Value = { List NameValue };

    ghost view = { λ a. a.headers };
}

/// Returns why a file could not be read.
fn unread(error: io::Error) -> AccessError {
    if error.kind() == ErrorKind::OutOfMemory {
        return AccessError::OutOfMemory;
    }
    AccessError::Unreadable(error)
}

/// Returns the token in the text of a file: all but the white space at its end.
fn token_in(text: &[u8]) -> Option<&str> {
    let token = str::from_utf8(text).ok()?.trim_end();
    if token.is_empty() { None } else { Some(token) }
}

/// Returns the fields with this token.
fn with_token(headers: &ExtraFields, token: &str) -> Result<ExtraFields, AccessError>
    ensures { IfOk result (λ f. f ≡ headers.now ++ bearer token.now ∷ []) }
{
    let mut fields = headers.copy()?;
    if fields.add_bearer(token)? {
        Ok(fields)
    } else {
        Err(AccessError::NotSent)
    }
}

impl Access {
    /// Returns what adds these fields and, if the path of the token file is not empty, its token.
    pub fn new(alloc: Global, headers: ExtraFields, token_file: String) -> Access
        ensures { result ≡ headers }
    {
        Access {
            alloc,
            headers,
            token_file,
        }
    }

    /// Returns whether there is a token file.
    pub(crate) fn has_token_file(&self) -> bool {
        !self.token_file.is_empty()
    }

    /// Returns all fields, with the token that is in its file now.
    pub fn fields<F: Files + AllocGlobal>(&self, files: &F) -> Result<ExtraFields, AccessError>
        ensures { IfOk result (HasToken self.now) }
    {
        if self.token_file.is_empty() {
            return Ok(self.headers.copy()?);
        }
        let text = match fs::read(files, self.token_file.as_str()) {
            Ok(text) => text,
            Err(error) => return Err(unread(error)),
        };
        match token_in(text.as_slice()) {
            Some(token) => with_token(&self.headers, token),
            None => Err(AccessError::NotSent),
        }
    }
}
