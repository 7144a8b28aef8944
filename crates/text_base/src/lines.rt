//! Lines of a text, and the words of a line.

ghost use Rattle.std.specs.Prelude.{◌≡◌, ◌<◌, ◌+◌, length, IfSome, IfNone, None, [], ◌∷◌, ◌++◌};
ghost use Rattle.std.specs.Option.{option_map};
ghost use Rattle.text_base.specs.Lines.{lines_of, words_of, spaced, joined, AreLines, first_line, size_of, Lacks};

use memchr::memchr;
use std::marker::Model;

/// A line of a text.
#[derive(Clone, Copy)]
pub struct Line<'a> {
    /// The offset of the line in the text.
    pub at: usize,
    /// The line without its line feed.
    pub text: &'a [u8],
    /// Whether a line feed ended it.
    pub whole: bool,
}

/// A reader of the lines of a text. Seen as its position: the offset of the next line, and the lines from there on.
#[derive(Drop)]
pub struct LineReader<'a> {
    rest: &'a [u8],
    at: usize,
}

impl<'a> Model for LineReader<'a> {
    ghost use Rattle.std.specs.Prelude.{◌+◌, ◌<◌, ◌^◌, length};
    ghost use Rattle.text_base.specs.Lines.{Position, lines_of};

    ghost Value = { Position };

    ghost view = { λ r. record { at = r.at; rest = lines_of r.rest.now } };

    ghost invariant = { λ r. r.at + length r.rest.now < 2 ^ 64 };
}

// The bytes before the first such byte, and those after it.
fn cut(text: &[u8], at: u8) -> Option<(&[u8], &[u8])>
    ensures none { IfNone result (Lacks at text.now) }
    ensures some { IfSome result (λ r. text.now ≡ r.0.now ++ at ∷ r.1.now) }
    ensures first { IfSome result (λ r. Lacks at r.0.now) }
{
    let end = text.iter().position(|b| *b == at)?;
    Some((&text[..end], &text[end + 1..]))
}

// The first line of a text that isn't empty, and the text after it. Lines are often long, so many bytes are searched at once, which is
// slower for short lines.
#[tactic(auto, using(crate::proofs::Splitting::lines_cut, crate::proofs::Splitting::lines_uncut))]
fn first_of(text: &[u8], at: usize) -> (Line<'_>, &[u8])
    requires { 0 < length text.now }
    ensures lines { lines_of text.now ≡ record { text = result.0.text.now; whole = result.0.whole } ∷ lines_of result.1.now }
    ensures at { result.0.at ≡ at }
    ensures size { size_of (record { text = result.0.text.now; whole = result.0.whole }) + length result.1.now ≡ length text.now }
{
    match memchr(b'\n', text) {
        Some(end) => (
            Line {
                at,
                text: &text[..end],
                whole: true,
            },
            &text[end + 1..],
        ),
        None => (
            Line {
                at,
                text,
                whole: false,
            },
            &[],
        ),
    }
}

impl<'a> LineReader<'a> {
    /// A reader at the beginning of a text. Its lines with their line feeds make up the text. No line has a line feed in it, and only the
    /// last one may lack the one at its end.
    #[tactic(auto, using(crate::proofs::Splitting::joined_lines, crate::proofs::Splitting::are_lines))]
    pub fn new(text: &'a [u8]) -> LineReader<'a>
        ensures position { result ≡ record { at = 0; rest = lines_of text.now } }
        ensures joined { joined result.rest ≡ text.now }
        ensures lines { AreLines result.rest }
    {
        LineReader { rest: text, at: 0 }
    }

    /// The offset of the next line, or the text's length.
    pub fn offset(&self) -> usize
        ensures { result ≡ self.now.at }
    {
        self.at
    }

    /// The next line, without moving the reader. None exactly at the end of the text.
    pub fn peek(&self) -> Option<Line<'a>>
        ensures line { option_map (λ l. record { text = l.text.now; whole = l.whole }) result ≡ first_line self.now.rest }
        ensures at { IfSome result (λ l. l.at ≡ self.now.at) }
    {
        if self.rest.is_empty() {
            return None;
        }
        let (line, _) = first_of(self.rest, self.at);
        Some(line)
    }

    /// The next line; the reader moves past it. None exactly at the end of the text.
    pub fn next(&mut self) -> Option<Line<'a>>
        ensures none { result ≡ None → (self.old.rest ≡ []) × (self.new ≡ self.old) }
        ensures used_up { self.old.rest ≡ [] → result ≡ None }
        ensures some { IfSome result (λ l. l.at ≡ self.old.at) }
        ensures rest { IfSome result (λ l. self.old.rest ≡ record { text = l.text.now; whole = l.whole } ∷ self.new.rest) }
        ensures moved { IfSome result (λ l. self.new.at ≡ self.old.at + size_of (record { text = l.text.now; whole = l.whole })) }
    {
        if self.rest.is_empty() {
            return None;
        }
        let (line, rest) = first_of(self.rest, self.at);
        self.at += self.rest.len() - rest.len();
        self.rest = rest;
        Some(line)
    }
}

/// A reader of the words of a line: the bytes between single spaces. An empty line has one empty word.
#[derive(Drop)]
pub struct Words<'a> {
    rest: &'a [u8],
    ended: bool,
}

impl<'a> Model for Words<'a> {
    ghost use Rattle.std.specs.Prelude.{List, ℕ, [], if◌then◌else◌};
    ghost use Rattle.text_base.specs.Lines.{words_of};

    ghost Value = { List (List ℕ) };

    ghost view = { λ w. if w.ended then [] else words_of w.rest.now };
}

impl<'a> Words<'a> {
    /// All words of a line. With one space between each two they make up the line.
    #[tactic(auto, using(crate::proofs::Splitting::spaced_words))]
    pub fn new(line: &'a [u8]) -> Words<'a>
        ensures words { result ≡ words_of line.now }
        ensures spaced { spaced result ≡ line.now }
    {
        Words {
            rest: line,
            ended: false,
        }
    }

    /// The next word. None exactly after the last one.
    #[tactic(auto, using(crate::proofs::Splitting::words_at, crate::proofs::Splitting::words_none))]
    pub fn next(&mut self) -> Option<&'a [u8]>
        ensures none { result ≡ None → (self.old ≡ []) × (self.new ≡ []) }
        ensures used_up { self.old ≡ [] → result ≡ None }
        ensures some { IfSome result (λ w. self.old ≡ w.now ∷ self.new) }
    {
        if self.ended {
            return None;
        }
        match cut(self.rest, b' ') {
            Some((word, rest)) => {
                self.rest = rest;
                Some(word)
            }
            None => {
                self.ended = true;
                Some(self.rest)
            }
        }
    }
}
