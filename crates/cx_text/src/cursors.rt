//! Reading a text byte by byte, with the place of each byte.

ghost use Rattle.std.specs.Prelude.{◌≡◌, ◌≤◌, length, slice_get};

use crate::places::Place;
use std::marker::Model;

/// A text and how many of its bytes are read, which is how contracts see it: as a `Reading`.
#[derive(Debug, Drop)]
pub struct Cursor<'a> {
    text: &'a [u8],
    read: usize,
    place: Place,
}

impl<'a> Model for Cursor<'a> {
    ghost use Rattle.cx_text.specs.Places.{Reading, StandsAt};

    ghost Value = { Reading };

    ghost view = { λ c. record { text = c.text.now; read = c.read } };

    ghost invariant = { λ c. StandsAt c.text.now c.read c.place };
}

impl<'a> Cursor<'a> {
    ghost use Rattle.cx_text.specs.Places.{place_at, advanced};

    /// Stands before the first byte of a text.
    pub fn new(text: &'a [u8]) -> Cursor<'a>
        requires { length text.now ≤ 83886080 }
        ensures { result ≡ record { text = text.now; read = 0 } }
    {
        Cursor {
            text,
            read: 0,
            place: Place { line: 1, column: 1 },
        }
    }

    /// Answers the next byte and stays before it, or None exactly at the end.
    pub fn peek(&self) -> Option<u8>
        ensures { result ≡ slice_get self.now.text self.now.read }
    {
        self.text.get(self.read).copied()
    }

    /// Answers the next byte and goes behind it. At the end it answers None and stays there.
    pub fn next(&mut self) -> Option<u8>
        ensures value { result ≡ slice_get self.old.text self.old.read }
        ensures after { self.new ≡ advanced self.old }
    {
        let byte = self.peek()?;
        self.place = self.place.after(byte);
        self.read += 1;
        Some(byte)
    }

    /// The place of the next byte, or of the end.
    pub fn place(&self) -> Place
        ensures { result ≡ place_at self.now.text self.now.read }
    {
        self.place
    }
}
