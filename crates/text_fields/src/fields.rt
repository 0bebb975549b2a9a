//! The fields of a line, from left to right.
ghost use Rattle.std.specs.Prelude.{◌≡◌, ◌≤◌, ◌==◌, ℕ, List, not, length, drop, is_some, position};
ghost use Rattle.std.specs.List.{position_or_len};
ghost use Rattle.text_fields.specs.Fields.{field_at, fields, is_blank as blank, is_full};
ghost use Rattle.text_fields.specs.Lines.{Line, without_first};

use std::marker::Model;

/// The fields of a line that are still to be read, with the line's number. Contracts see the number and the fields.
#[derive(Drop)]
pub struct Fields<'a> {
    line: u32,
    rest: &'a [u8],
}

impl<'a> Model for Fields<'a> {
    ghost Value = { Line };

    ghost view = { λ s. record { number = s.line; texts = fields s.rest.now } };
}

impl<'a> Fields<'a> {
    /// The fields of a whole line, which has this number. Blanks are tabs, carriage returns and spaces. A line feed in
    /// it is part of a field.
    pub fn new(line: u32, text: &'a [u8]) -> Self
        ensures { result ≡ record { number = line; texts = fields text.now } }
    {
        Fields { line, rest: text }
    }

    /// The number of the line.
    pub fn line(&self) -> u32
        ensures { result ≡ self.now.number }
    {
        self.line
    }

    /// Whether no field is left.
    pub fn is_done(&self) -> bool
        ensures { result ≡ (length self.now.texts == 0) }
    {
        let mut fields = Fields::new(0, self.rest);
        fields.next().is_empty()
    }

    /// Takes the next field, or the empty text where none is left. No field is empty.
    pub fn next(&mut self) -> &'a [u8]
        ensures field { result.now ≡ field_at self.old.texts 0 }
        ensures left { self.new ≡ without_first self.old }
    {
        let text = &self.rest[field_start(self.rest)..];
        let (field, rest) = text.split_at(field_end(text));
        self.rest = rest;
        field
    }
}

fn is_blank(byte: u8) -> bool
    ensures { result ≡ blank byte }
{
    byte == b'\t' || byte == b'\r' || byte == b' '
}

fn first_full(text: &[u8]) -> Option<usize>
    ensures { result ≡ position (λ b. not (blank b)) text.now }
{
    text.iter().position(|b| !is_blank(*b))
}

fn first_blank(text: &[u8]) -> Option<usize>
    ensures { result ≡ position blank text.now }
{
    text.iter().position(|b| is_blank(*b))
}

/// How many blanks stand before the first other byte.
fn field_start(text: &[u8]) -> usize
    ensures start { result ≡ position_or_len (λ b. not (blank b)) text.now }
    ensures inside { result ≤ length text.now }
{
    match first_full(text) {
        Some(place) => place,
        None => text.len(),
    }
}

/// How many bytes stand before the first blank.
fn field_end(text: &[u8]) -> usize
    ensures end { result ≡ position_or_len blank text.now }
    ensures inside { result ≤ length text.now }
{
    match first_blank(text) {
        Some(place) => place,
        None => text.len(),
    }
}
