//! Reading one token.

ghost use Rattle.std.specs.Prelude.{◌≡◌, ℕ, [], ◌∷◌, Some, None, option_map, MatchOption};
ghost use Rattle.cx_grammar.specs.Grammar.{Nest, Deeper, opening};
ghost use Rattle.cx_grammar.specs.Terminals.{is_in};
ghost use Rattle.cx_grammar.specs.Calyx as calyx;
ghost use Rattle.cx_parse.specs.Readings.{Gives, Keeps, one_of, state_of, next_is_in, out_of_memory};

use crate::stops::Stop;
use cx_ast::{Token, TokenKind};
use cx_grammar::{Terminal, from_kind};
use cx_text::{Name, Place};
use std::alloc::Global;

/// The terminals of words, reserved or not.
const WORDS: [Terminal; 18] = [
    Terminal::Name,
    Terminal::Import,
    Terminal::Component,
    Terminal::Cells,
    Terminal::Wires,
    Terminal::Control,
    Terminal::Group,
    Terminal::Comb,
    Terminal::Static,
    Terminal::Seq,
    Terminal::Par,
    Terminal::If,
    Terminal::Else,
    Terminal::While,
    Terminal::Repeat,
    Terminal::Invoke,
    Terminal::With,
    Terminal::Ref,
];

/// The place that is answered where reading has stopped.
pub const START: Place = Place { line: 1, column: 1 };

/// Reads tokens from the left. Where it stops it notes why, and reads nothing more: what is answered then counts for nothing.
#[derive(Drop)]
pub struct Reader<'a> {
    pub alloc: Global,
    pub rest: &'a [Token],
    pub stop: Option<Stop>,
}

impl<'a> Reader<'a> {
    /// Tells whether the next token is one of a set.
    pub fn next_in(&self, set: &[Terminal]) -> bool
        ensures value { result ≡ next_is_in set.now (state_of self.now) }
    {
        match (self.stop, self.rest.split_first()) {
            (None, Some((first, _))) => is_one_of(from_kind(&first.kind), set),
            _ => false,
        }
    }

    /// Tells whether the next token is a reserved word or a sign.
    pub fn next_is(&self, want: Terminal) -> bool
        ensures value { result ≡ next_is_in (want ∷ []) (state_of self.now) }
    {
        match (self.stop, self.rest.split_first()) {
            (None, Some((first, _))) => from_kind(&first.kind).is(want),
            _ => false,
        }
    }

    /// Reads one token of a set.
    pub fn take(&mut self, set: &[Terminal]) -> Option<&'a Token>
        ensures value { (levels : ℕ) → Gives levels (one_of set.now) (state_of self.old)
            (state_of self.new) (option_map (λ t. t.now) result) }
    {
        if self.stop.is_some() {
            return None;
        }
        match self.rest.split_first() {
            Some((first, rest)) if is_one_of(from_kind(&first.kind), set) => {
                self.rest = rest;
                Some(first)
            }
            _ => {
                self.stop = Some(Stop::Unexpected(self.rest.len()));
                None
            }
        }
    }

    /// Reads a reserved word or a sign, and answers its place.
    pub fn sign(&mut self, want: Terminal) -> Place
        ensures value { (levels : ℕ) →
            Gives levels (calyx.sign want) (state_of self.old) (state_of self.new) (Some result) }
    {
        match self.take(&[want]) {
            Some(token) => token.place,
            None => START,
        }
    }

    /// Reads a number.
    pub fn number(&mut self) -> u64
        ensures value { (levels : ℕ) → Gives levels calyx.number (state_of self.old) (state_of self.new) (Some result) }
    {
        match self.take(&[Terminal::Number]) {
            Some(token) => number_of(&token.kind),
            None => 0,
        }
    }

    /// Reads a word that is not reserved, and answers its place too.
    pub fn name(&mut self) -> Option<(Name, Place)>
        ensures value { (levels : ℕ) → Gives levels calyx.name (state_of self.old) (state_of self.new)
            (option_map (λ n. (n.0, n.1)) result) }
    {
        let token = self.take(&[Terminal::Name])?;
        let name = self.copied(word_of(&token.kind))?;
        Some((name, token.place))
    }

    /// Reads a word, reserved or not.
    pub fn word(&mut self) -> Option<Name>
        ensures value { (levels : ℕ) → Gives levels calyx.word (state_of self.old) (state_of self.new) result }
    {
        let token = self.take(&WORDS)?;
        self.copied(word_of(&token.kind))
    }

    /// Reads a string.
    pub fn text(&mut self) -> Option<Name>
        ensures value { (levels : ℕ) → Gives levels calyx.text (state_of self.old) (state_of self.new) result }
    {
        let token = self.take(&[Terminal::Text])?;
        self.copied(text_of(&token.kind))
    }

    /// Copies the bytes of a name.
    fn copied(&mut self, bytes: &[u8]) -> Option<Name>
        ensures value { MatchOption result (state_of self.new ≡ out_of_memory (state_of self.old))
            (λ name. (state_of self.new ≡ state_of self.old) × (name ≡ bytes.now)) }
    {
        match Name::from_bytes(self.alloc, bytes) {
            Ok(name) => Some(name),
            Err(_) => {
                self.lack();
                None
            }
        }
    }

    /// Notes that memory ran out, unless reading has stopped.
    pub fn lack(&mut self)
        ensures value { state_of self.new ≡ out_of_memory (state_of self.old) }
    {
        if self.stop.is_none() {
            self.stop = Some(Stop::Memory);
        }
    }

    /// Stops where no level is left: a token that begins one is too deep, another one unexpected.
    pub fn no_level(&mut self, want: Terminal)
        ensures value { (n : Nest) → opening n ≡ want →
            Gives 0 (Deeper n) (state_of self.old) (state_of self.new) None }
    {
        if self.stop.is_some() {
            return;
        }
        let left = self.rest.len();
        if self.next_is(want) {
            self.stop = Some(Stop::TooDeep(left));
        } else {
            self.stop = Some(Stop::Unexpected(left));
        }
    }

    /// Adds what was read to a list, where something was.
    pub fn keep<T: Drop>(&mut self, all: &mut Vec<T>, item: Option<T>)
        ensures value { Keeps (state_of self.old) (state_of self.new) all.old.items all.new.items item }
    {
        if let Some(item) = item {
            if all.push(item).is_err() {
                self.lack();
            }
        }
    }
}

/// Tells whether a terminal is one of a set.
fn is_one_of(terminal: Terminal, set: &[Terminal]) -> bool
    ensures value { result ≡ is_in terminal set.now }
{
    set.iter().any(|t| terminal.is(*t))
}

/// The number that a token is.
fn number_of(kind: &TokenKind) -> u64
    ensures value { result ≡ calyx.number_of kind.now }
{
    match kind {
        TokenKind::Number(n) => *n,
        _ => 0,
    }
}

/// The bytes of a word.
fn word_of(kind: &TokenKind) -> &[u8]
    ensures value { result.now ≡ calyx.word_of kind.now }
{
    match kind {
        TokenKind::Word(word) => word.bytes(),
        _ => b"".as_slice(),
    }
}

/// The bytes of a string.
fn text_of(kind: &TokenKind) -> &[u8]
    ensures value { result.now ≡ calyx.text_of kind.now }
{
    match kind {
        TokenKind::Text(text) => text.bytes(),
        _ => b"".as_slice(),
    }
}
