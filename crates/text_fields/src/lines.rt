//! The lines of a text that have fields.
ghost use Rattle.std.specs.Prelude.{◌≡◌, ◌≤◌, ◌<◌, ℕ, ◌+◌, List, length, ◌^◌, take, drop, position};
ghost use Rattle.std.specs.List.{position_or_len};
ghost use Rattle.coflow_units.specs.declared.limits.TheConstants.{MAX_TEXT};
ghost use Rattle.text_fields.specs.Fields.{fields, is_full};
ghost use Rattle.text_fields.specs.Lines.{CutsLine, Line, TakesLine, is_line_feed, lines_from, lines_of};

use crate::fields::Fields;
use std::marker::Model;

/// The lines with fields that are still to be read. Contracts see the list of these lines, each with its number and its
/// fields.
#[derive(Drop)]
pub struct Lines<'a> {
    number: u32,
    rest: &'a [u8],
}

impl<'a> Model for Lines<'a> {
    ghost Value = { List Line };

    ghost view = { λ s. lines_from s.number s.rest.now };

    ghost invariant = { λ s. s.number + length s.rest.now < 2 ^ 32 };
}

impl<'a> Lines<'a> {
    /// The lines of a whole text of at most 2^26 bytes. Lines are cut by line feeds and counted from 1, blank ones
    /// included; the last one needs no line feed.
    pub fn new(text: &'a [u8]) -> Self
        requires { length text.now ≤ MAX_TEXT }
        ensures { result ≡ lines_of text.now }
    {
        Lines {
            number: 1,
            rest: text,
        }
    }

    /// Takes the next line that has fields, or answers `None` where there is none.
    pub fn next(&mut self) -> Option<Fields<'a>>
        ensures { TakesLine self.old self.new result }
    {
        let Some((number, line, rest)) = full_line(self.number, self.rest) else {
            self.rest = &self.rest[self.rest.len()..];
            return None;
        };
        self.number = number + 1;
        self.rest = rest;
        Some(Fields::new(number, line))
    }
}

fn first_line_feed(text: &[u8]) -> Option<usize>
    ensures { result ≡ position is_line_feed text.now }
{
    text.iter().position(|b| *b == b'\n')
}

/// The first line, and the text behind its line feed.
fn cut_line(text: &[u8]) -> (&[u8], &[u8])
    ensures line { result.0.now ≡ take (position_or_len is_line_feed text.now) text.now }
    ensures rest { result.1.now ≡ drop (position_or_len is_line_feed text.now + 1) text.now }
{
    match first_line_feed(text) {
        Some(end) => (&text[..end], &text[end + 1..]),
        None => (text, &text[text.len()..]),
    }
}

fn has_field(line: &[u8]) -> bool
    ensures { result ≡ is_full (fields line.now) }
{
    let mut fields = Fields::new(0, line);
    !fields.next().is_empty()
}

/// The first line with fields, its number, and the text behind it.
fn full_line(number: u32, text: &[u8]) -> Option<(u32, &[u8], &[u8])>
    requires { number + length text.now < 2 ^ 32 }
    ensures { CutsLine (λ v. v.0) (λ v. v.1.now) (λ v. v.2.now) number text.now result }
{
    let mut number = number;
    let mut rest = text;
    while !rest.is_empty() {
        let (line, behind) = cut_line(rest);
        if has_field(line) {
            return Some((number, line, behind));
        }
        rest = behind;
        number += 1;
    }
    None
}
