//! A row: its words, read one after another, and the words of its answer.
#![tactic(auto)]

use arrayvec::{ArrayString, ArrayVec};
use byteorder::{BigEndian, ByteOrder};
use hex::FromHex;

const DIGITS: [&str; 16] = [
    "0", "1", "2", "3", "4", "5", "6", "7", "8", "9", "a", "b", "c", "d", "e", "f",
];

/// A text of at most 384 octets.
pub type Text = ArrayVec<u8, 384>;

/// The words of an answer, with a space before each.
pub type Answer = ArrayString<1024>;

/// What is left of a row, and its answer.
#[derive(Drop)]
pub struct Row<'a> {
    rest: &'a str,
    answer: Answer,
    is_refused: bool,
}

impl<'a> Row<'a> {
    /// The row of this line, of which nothing is read yet.
    pub fn new(line: &'a str) -> Row<'a> {
        Row {
            rest: line,
            answer: Answer::new(),
            is_refused: false,
        }
    }

    /// The next word; an empty one where none is left.
    pub fn word(&mut self) -> &'a str {
        let (word, rest) = self.rest.split_once(' ').unwrap_or((self.rest, ""));
        self.rest = rest;
        word
    }

    /// The row can't be read, or no call is to be made for what it says.
    pub fn refuse(&mut self) {
        self.is_refused = true;
    }

    /// The octets of the next word, as many as are wanted.
    pub fn octets<const N: usize>(&mut self) -> [u8; N] {
        match <[u8; N]>::from_hex(self.word()) {
            Ok(octets) => octets,
            Err(_) => {
                self.refuse();
                [0; N]
            }
        }
    }

    /// The octets of the next word, at most 384; `-` is none.
    pub fn text(&mut self) -> Text {
        let word = self.word();
        let mut text = Text::new();
        let mut buffer = [0; 384];
        let length = (word.len() / 2).min(384);
        if word != "-" && hex::decode_to_slice(word, &mut buffer[..length]).is_err() {
            self.refuse();
        }
        let _ = text.try_extend_from_slice(&buffer[..length]);
        text
    }

    /// A number of one octet.
    pub fn number8(&mut self) -> u8 {
        u8::from_be_bytes(self.octets())
    }

    /// A number of two octets.
    pub fn number16(&mut self) -> u16 {
        u16::from_be_bytes(self.octets())
    }

    /// A number of three octets.
    pub fn number24(&mut self) -> u32 {
        let octets: [u8; 3] = self.octets();
        BigEndian::read_u24(&octets)
    }

    /// A number of four octets.
    pub fn number32(&mut self) -> u32 {
        u32::from_be_bytes(self.octets())
    }

    /// Whether the next word is 1 and not 0.
    pub fn flag(&mut self) -> bool {
        let word = self.word();
        if word != "0" && word != "1" {
            self.refuse();
        }
        word == "1"
    }

    /// Puts a word behind the answer.
    pub fn put(&mut self, word: &str) {
        let _ = self.answer.try_push_str(" ");
        let _ = self.answer.try_push_str(word);
    }

    /// Puts the digits of octets behind the answer, as one word.
    pub fn put_octets(&mut self, octets: &[u8]) {
        self.put(if octets.is_empty() { "-" } else { "" });
        for octet in octets {
            let _ = self.answer.try_push_str(DIGITS[(*octet / 16) as usize]);
            let _ = self.answer.try_push_str(DIGITS[(*octet % 16) as usize]);
        }
    }

    /// Puts 1 or 0 behind the answer.
    pub fn put_flag(&mut self, flag: bool) {
        self.put(if flag { "1" } else { "0" });
    }

    /// The answer, if the row was read to its end and not refused.
    pub fn answer(self) -> Answer {
        let Row {
            rest,
            mut answer,
            is_refused,
        } = self;
        if is_refused || !rest.is_empty() {
            answer = Answer::new();
            let _ = answer.try_push_str(" refused");
        }
        answer
    }
}
