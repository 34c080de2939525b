ghost use Rattle.std.specs.Prelude.{◌≡◌, ℕ, ◌+◌, ◌≤◌, ◌++◌, List, [], length};
ghost use Rattle.std.specs.Fmt.{decimal, signed_decimal};
ghost use Rattle.ss_elem.specs.Key.{key_text};
ghost use Rattle.ss_elem.specs.Line.{last_values, line_of};

use crate::element::{Element, Event};
use crate::key::Key;
use arrayvec::ArrayVec;
use itoa::Buffer;
use std::marker::Model;

const LINE_BYTES: usize = 160;

/// A buffer for one line, of 160 bytes; every line fits, since none is longer than 147.
#[derive(Drop)]
pub struct LineBuf {
    bytes: ArrayVec<u8, LINE_BYTES>,
}

impl Model for LineBuf {
    ghost Value = { List ℕ };

    ghost view = { λ b. b.bytes.items };
}

impl LineBuf {
    /// An empty line.
    pub fn new() -> LineBuf
        ensures { result ≡ [] }
    {
        LineBuf {
            bytes: ArrayVec::new(),
        }
    }

    /// The line's bytes.
    pub fn as_slice(&self) -> &[u8]
        ensures { result.now ≡ self.now }
    {
        self.bytes.as_slice()
    }

    fn clear(&mut self)
        ensures { self.new ≡ [] }
    {
        self.bytes.clear();
    }

    fn put(&mut self, text: &[u8])
        requires { length self.old + length text.now ≤ 160 }
        ensures { self.new ≡ self.old ++ text.now }
    {
        self.bytes.try_extend_from_slice(text).unwrap();
    }

    fn put_unsigned(&mut self, number: u64)
        requires { length self.old ≤ 140 }
        ensures text { self.new ≡ self.old ++ decimal number }
        ensures short { length self.new ≤ length self.old + 20 }
    {
        self.put(Buffer::new().format(number).as_bytes());
    }

    fn put_signed(&mut self, number: i64)
        requires { length self.old ≤ 140 }
        ensures text { self.new ≡ self.old ++ signed_decimal number }
        ensures short { length self.new ≤ length self.old + 20 }
    {
        self.put(Buffer::new().format(number).as_bytes());
    }

    fn put_key(&mut self, key: &Key)
        requires { length self.old ≤ 140 }
        ensures text { self.new ≡ self.old ++ key_text key.now }
        ensures short { length self.new ≤ length self.old + 16 }
    {
        let (bytes, count) = key.bytes();
        self.put(&bytes[..count]);
    }

    fn put_row(&mut self, event: &Event)
        requires { self.old ≡ [] }
        ensures { self.new ≡ line_of (Element.Row event.now) }
    {
        self.put(b"event,");
        self.put_unsigned(event.start);
        self.put(b",");
        self.put_unsigned(event.end);
        self.put(b",");
        self.put_key(&event.key);
        self.put(b",");
        self.put_signed(event.a);
        self.put(b",");
        self.put_signed(event.b);
        self.put_last_values(event);
        self.put(b"\n");
    }

    fn put_last_values(&mut self, event: &Event)
        requires { length self.old ≤ 110 }
        ensures text { self.new ≡ self.old ++ last_values event.now }
        ensures short { length self.new ≤ length self.old + 42 }
    {
        if !event.has_two_values() {
            self.put(b",");
            self.put_signed(event.c);
            self.put(b",");
            self.put_signed(event.d);
        }
    }
}

/// Makes `out` the element's line and its newline: `event,START,END,KEY,A,B,C,D`, `cti,T` or `end`, numbers in
/// plain decimal. C and D are left out together, where both are 0.
pub fn line(x: &Element, out: &mut LineBuf)
    ensures { out.new ≡ line_of x.now }
{
    out.clear();
    match x {
        Element::Row(event) => out.put_row(event),
        Element::Cti(time) => {
            out.put(b"cti,");
            out.put_unsigned(*time);
            out.put(b"\n");
        }
        Element::End => out.put(b"end\n"),
    }
}
