//! Fields that are added to requests.

ghost use Rattle.std.specs.Prelude.{◌≡◌, ◌↔◌, ◌≤◌, ◌+◌, ◌++◌, ◌∷◌, [], length, map, string_bytes, true, nat_le, codes, IfOk, OnOk, OnErr, if◌then◌else◌};
ghost use Rattle.rw_fields.specs.Fields.{is_extra, field_line, field_lines, has_name, can_add, AreExtra, bearer, first_line, after_first_line, with_fields};
ghost use Rattle.rw_fields.specs.inner.Fields.{name_and_value};

use crate::grammar::{is_field_name, is_field_value, is_framing, is_in_request, is_same_name};
use std::alloc::{AllocError, Global};
use std::marker::Model;

/// The most fields.
const MOST_FIELDS: usize = 32;

/// The most bytes of all field lines together.
const MOST_BYTES: usize = 6_000;

/// A field.
#[derive(Drop)]
pub(crate) struct Field {
    pub(crate) name: String,
    pub(crate) value: String,
}

/// Fields that are added to each request of a sender, as `X-Scope-OrgID` and `Authorization`: at
/// most 32 of at most 6,000 bytes together, with different names, none of which a request has
/// already. Their values may be secret: nothing prints them. Contracts see the names and values.
#[derive(Drop)]
pub struct ExtraFields {
    alloc: Global,
    fields: Vec<Field>,
    /// The field lines of all.
    lines: Vec<u8>,
}

impl Model for ExtraFields {
    ghost use Rattle.std.specs.Prelude.{◌≡◌, List, map};
    ghost use Rattle.rw_fields.specs.Fields.{NameValue, field_lines, AreExtra};
    ghost use Rattle.rw_fields.specs.inner.Fields.{name_and_value};

    ghost Value = { List NameValue };

    ghost view = { λ f. map name_and_value f.fields.items };

    ghost invariant = { λ f. AreExtra (map name_and_value f.fields.items)
        × (f.lines.items ≡ field_lines (map name_and_value f.fields.items)) };
}

/// Returns what comes after the first line of a text.
#[tactic(auto, unfolding(crate::specs::Fields::after_first_line))]
fn after_first_line(text: &[u8]) -> &[u8]
    ensures { result.now ≡ after_first_line text.now }
{
    let mut rest = text;
    while let Some((first, after)) = rest.split_first() {
        if *first == b'\n' {
            return after;
        }
        rest = after;
    }
    rest
}

/// Returns the first line of a text with its line feed, and what comes after it.
fn split_line(text: &[u8]) -> (&[u8], &[u8])
    ensures first { result.0.now ≡ first_line text.now }
    ensures after { result.1.now ≡ after_first_line text.now }
{
    let after = after_first_line(text);
    (&text[..text.len() - after.len()], after)
}

/// Returns a copy of bytes.
fn copy_bytes(alloc: Global, bytes: &[u8]) -> Result<Vec<u8>, AllocError>
    ensures { IfOk result (λ v. v.items ≡ bytes.now) }
{
    Vec::from_slice(alloc, bytes)
}

/// Returns a field.
fn field_of(alloc: Global, name: &str, value: &str) -> Result<Field, AllocError>
    ensures { IfOk result (λ f. name_and_value f ≡ (name.now, value.now)) }
{
    Ok(Field {
        name: String::from_str(alloc, name)?,
        value: String::from_str(alloc, value)?,
    })
}

/// Appends a field.
fn push_field(fields: &mut Vec<Field>, field: Field) -> Result<(), AllocError>
    ensures pushed { OnOk result (fields.new.items ≡ fields.old.items ++ field ∷ []) }
    ensures unchanged { OnErr result (fields.new.items ≡ fields.old.items) }
{
    fields.push(field)?;
    Ok(())
}

/// Returns copies of fields.
fn copy_of(alloc: Global, fields: &[Field]) -> Result<Vec<Field>, AllocError>
    ensures { IfOk result
        (λ v. map name_and_value v.items ≡ map name_and_value fields.now) }
{
    let mut copies = Vec::new(alloc);
    for field in fields {
        let copy = field_of(alloc, field.name.as_str(), field.value.as_str())?;
        push_field(&mut copies, copy)?;
    }
    Ok(copies)
}

/// Returns the value of `Authorization` that carries a bearer token (RFC 6750, section 2.1).
fn bearer_value(alloc: Global, token: &str) -> Result<String, AllocError>
    ensures { IfOk result (λ v. string_bytes v ≡ codes "Bearer " ++ token.now) }
{
    let mut value = String::from_str(alloc, "Bearer ")?;
    value.push_str(token)?;
    Ok(value)
}

/// Returns whether a field of this name and value may be in a request besides its own.
#[tactic(auto, unfolding(crate::specs::Fields::is_extra))]
pub fn is_extra(name: &str, value: &str) -> bool
    ensures { result ≡ is_extra (name.now, value.now) }
{
    is_field_name(name) && is_field_value(value) && !(is_in_request(name) || is_framing(name))
}

/// Returns whether one of these fields has this name.
fn has_name(fields: &[Field], name: &str) -> bool
    ensures { result ≡ has_name name.now (map name_and_value fields.now) }
{
    for field in fields {
        if is_same_name(field.name.as_str(), name) {
            return true;
        }
    }
    false
}

/// Returns whether there is room for a field line after field lines of this many bytes.
fn has_room(held: usize, name: &str, value: &str) -> bool
    requires { held ≤ 6000 }
    ensures { result ≡ nat_le (held + length (field_line (name.now, value.now))) 6000 }
{
    if name.len() > MOST_BYTES || value.len() > MOST_BYTES {
        return false;
    }
    held + (name.len() + value.len() + 4) <= MOST_BYTES
}

/// Appends a field line.
fn push_line(lines: &mut Vec<u8>, name: &str, value: &str) -> Result<(), AllocError>
    ensures { OnOk result
        (lines.new.items ≡ lines.old.items ++ field_line (name.now, value.now)) }
{
    lines.extend_from_slice(name.as_bytes())?;
    lines.extend_from_slice(b": ")?;
    lines.extend_from_slice(value.as_bytes())?;
    lines.extend_from_slice(b"\r\n")?;
    Ok(())
}

impl ExtraFields {
    /// Returns no fields.
    pub fn new(alloc: Global) -> ExtraFields
        ensures { result ≡ [] }
    {
        ExtraFields {
            alloc,
            fields: Vec::new(alloc),
            lines: Vec::new(alloc),
        }
    }

    /// Law: they are fields that may be added to a request. The call does nothing.
    pub fn conform(&self)
        ensures { AreExtra self.now }
    {
        let _ = &self.fields;
    }

    /// Returns whether two have the same field lines.
    pub fn is_same(&self, other: &ExtraFields) -> bool
        ensures { (result ≡ true) ↔ (field_lines self.now ≡ field_lines other.now) }
    {
        self.lines.as_slice() == other.lines.as_slice()
    }

    /// Returns whether there are no fields.
    pub fn is_empty(&self) -> bool
        ensures { (result ≡ true) ↔ (self.now ≡ []) }
    {
        self.fields.is_empty()
    }

    /// Returns whether one of the fields has this name, in any case.
    pub fn has(&self, name: &str) -> bool
        ensures { result ≡ has_name name.now self.now }
    {
        has_name(self.fields.as_slice(), name)
    }

    /// Returns whether a field can be added: its name and value are valid, neither a request nor
    /// these fields have its name, and there is room for it.
    #[tactic(auto, unfolding(crate::specs::Fields::can_add))]
    pub fn can_add(&self, name: &str, value: &str) -> bool
        ensures { result ≡ can_add self.now (name.now, value.now) }
    {
        is_extra(name, value)
            && !self.has(name)
            && self.fields.len() < MOST_FIELDS
            && has_room(self.lines.len(), name, value)
    }

    /// Adds a field. An `Err` means that memory ran out; then nothing has changed.
    pub fn add(&mut self, name: &str, value: &str) -> Result<(), AllocError>
        requires { can_add self.old (name.now, value.now) ≡ true }
        ensures added { OnOk result (self.new ≡ self.old ++ (name.now, value.now) ∷ []) }
        ensures unchanged { OnErr result (self.new ≡ self.old) }
    {
        let mut lines = copy_bytes(self.alloc, self.lines.as_slice())?;
        push_line(&mut lines, name, value)?;
        let field = field_of(self.alloc, name, value)?;
        push_field(&mut self.fields, field)?;
        self.lines = lines;
        Ok(())
    }

    /// Adds `Authorization: Bearer TOKEN`, and returns whether it could be added. An `Err` means
    /// that memory ran out; then nothing has changed.
    pub fn add_bearer(&mut self, token: &str) -> Result<bool, AllocError>
        ensures could { IfOk result (λ could. could ≡ can_add self.old (bearer token.now)) }
        ensures added { IfOk result (λ could. self.new
            ≡ (if could then self.old ++ bearer token.now ∷ [] else self.old)) }
        ensures unchanged { OnErr result (self.new ≡ self.old) }
    {
        let value = bearer_value(self.alloc, token)?;
        if !self.can_add("Authorization", value.as_str()) {
            return Ok(false);
        }
        self.add("Authorization", value.as_str())?;
        Ok(true)
    }

    /// Returns a copy. An `Err` means that memory ran out.
    pub fn copy(&self) -> Result<ExtraFields, AllocError>
        ensures { IfOk result (λ f. f ≡ self.now) }
    {
        let lines = copy_bytes(self.alloc, self.lines.as_slice())?;
        Ok(ExtraFields {
            alloc: self.alloc,
            fields: copy_of(self.alloc, self.fields.as_slice())?,
            lines,
        })
    }

    /// Returns a request with the fields after its request line (RFC 9112, section 2.1).
    #[tactic(auto, unfolding(crate::specs::Fields::with_fields))]
    pub fn add_to(&self, request: &[u8]) -> Result<Vec<u8>, AllocError>
        ensures { IfOk result (λ v. v.items ≡ with_fields self.now request.now) }
    {
        let (line, rest) = split_line(request);
        let mut bytes = Vec::new(self.alloc);
        bytes.extend_from_slice(line)?;
        bytes.extend_from_slice(self.lines.as_slice())?;
        bytes.extend_from_slice(rest)?;
        Ok(bytes)
    }
}
