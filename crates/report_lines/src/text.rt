//! The text of one line of the report, written word by word.
#![tactic(auto)]

ghost use Rattle.std.specs.Prelude.{◌≡◌, ◌<◌, ◌≤◌, ◌/◌, ◌%◌, ◌^◌, [], ◌∷◌, ◌++◌, length, IfOk, OnOk, slice_index};
ghost use Rattle.std.specs.Fmt.{decimal};
ghost use Rattle.hex.specs.Hex.{encode_lower, lower_digits};
ghost use Rattle.report_definitions.specs.Text.{hex_digits, word_text, octets_text, address_text, iv_text, pair_text, name_text, route_text};

use mesh_base::address::Address;
use mesh_base::pair::{Name, Pair};
use std::alloc::{AllocError, Global};
use std::marker::Model;

const HEX_DIGITS: [u8; 16] = *b"0123456789abcdef";

/// How many octets are written at once.
const ROW: usize = 32;

/// The hexadecimal digit of a number at a place, counted from the lowest.
#[inline(always)]
fn digit(n: u32, place: u32) -> u8
    requires { place < 8 }
    ensures value { result ≡ slice_index lower_digits (n / 16 ^ place % 16) }
{
    HEX_DIGITS[(n / 16u32.pow(place) % 16) as usize]
}

/// The eight digits of a number.
#[inline(always)]
#[tactic(auto, unfolding(report_definitions::specs::Text::hex_digits))]
fn digits_row(n: u32) -> [u8; 8]
    ensures value { result ≡ hex_digits 8 n }
{
    [
        digit(n, 7),
        digit(n, 6),
        digit(n, 5),
        digit(n, 4),
        digit(n, 3),
        digit(n, 2),
        digit(n, 1),
        digit(n, 0),
    ]
}

/// An address as a word.
#[inline(always)]
#[tactic(auto, unfolding(report_definitions::specs::Text::hex_digits))]
fn address_row(address: Address) -> [u8; 5]
    ensures value { result ≡ address_text address }
{
    let n = u32::from(address.0);
    [b' ', digit(n, 3), digit(n, 2), digit(n, 1), digit(n, 0)]
}

/// A pair as two words.
#[inline(always)]
#[tactic(auto, unfolding(report_definitions::specs::Text::hex_digits))]
fn pair_row(pair: Pair) -> [u8; 16]
    ensures value { result ≡ pair_text pair }
{
    let (iv, seq) = (pair.iv, pair.seq);
    [
        b' ',
        digit(iv, 7),
        digit(iv, 6),
        digit(iv, 5),
        digit(iv, 4),
        digit(iv, 3),
        digit(iv, 2),
        digit(iv, 1),
        digit(iv, 0),
        b' ',
        digit(seq, 5),
        digit(seq, 4),
        digit(seq, 3),
        digit(seq, 2),
        digit(seq, 1),
        digit(seq, 0),
    ]
}

/// TTL, SRC and DST as three words.
#[inline(always)]
#[tactic(auto, unfolding(report_definitions::specs::Text::hex_digits))]
fn route_row(ttl: u8, src: Address, dst: Address) -> [u8; 13]
    ensures value { result ≡ route_text ttl src dst }
{
    let (ttl, src, dst) = (u32::from(ttl), u32::from(src.0), u32::from(dst.0));
    [
        b' ',
        digit(ttl, 1),
        digit(ttl, 0),
        b' ',
        digit(src, 3),
        digit(src, 2),
        digit(src, 1),
        digit(src, 0),
        b' ',
        digit(dst, 3),
        digit(dst, 2),
        digit(dst, 1),
        digit(dst, 0),
    ]
}

/// The text of a line. A clause sees it as the list of its octets.
#[derive(Debug, Drop)]
pub struct LineText {
    octets: Vec<u8>,
}

impl Model for LineText {
    ghost use Rattle.std.specs.Prelude.{ℕ, List};

    ghost Value = { List ℕ };

    ghost view = { λ t. t.octets.items };
}

#[tactic(auto, using(std::proofs::Common::append_assoc))]
impl LineText {
    /// An empty text. It takes memory as it grows.
    pub fn new(alloc: Global) -> LineText
        ensures value { result ≡ [] }
    {
        LineText {
            octets: Vec::new(alloc),
        }
    }

    /// An empty text with room for so many octets.
    pub fn with_room(alloc: Global, room: usize) -> Result<LineText, AllocError>
        ensures value { IfOk result (λ text. text ≡ []) }
    {
        Ok(LineText {
            octets: Vec::with_capacity(alloc, room)?,
        })
    }

    /// The octets of the text.
    pub fn as_slice(&self) -> &[u8]
        ensures value { result.now ≡ self.now }
    {
        self.octets.as_slice()
    }

    /// How many octets the text has.
    pub fn len(&self) -> usize
        ensures value { result ≡ length self.now }
    {
        self.octets.len()
    }

    /// Lets all octets go, and keeps their room.
    pub fn clear(&mut self)
        ensures none { self.new ≡ [] }
    {
        self.octets.clear();
    }

    /// Puts these octets behind the text.
    pub fn push(&mut self, octets: &[u8]) -> Result<(), AllocError>
        ensures ok { OnOk result (self.new ≡ self.old ++ octets.now) }
    {
        self.octets.extend_from_slice(octets)
    }

    /// A number in decimal.
    #[tactic(auto, using(std::proofs::lemmas::Fmt::decimal_digit))]
    pub fn push_decimal(&mut self, n: u64) -> Result<(), AllocError>
        ensures ok { OnOk result (self.new ≡ self.old ++ decimal n) }
    {
        // Bearers, jobs and small counts have one digit, which is pushed without the room of twenty.
        if n < 10 {
            return self.push(&[b'0' + n as u8]);
        }
        let mut digits = itoa::Buffer::new();
        self.push(digits.format(n).as_bytes())
    }

    /// The lowest digits of a number, at most eight, in hexadecimal and lower case.
    pub fn push_digits(&mut self, digits: u32, n: u32) -> Result<(), AllocError>
        requires { digits ≤ 8 }
        ensures ok { OnOk result (self.new ≡ self.old ++ hex_digits digits n) }
    {
        let row = digits_row(n);
        self.push(&row[8 - digits as usize..])
    }

    /// A word of hexadecimal digits.
    pub fn push_field(&mut self, digits: u32, n: u32) -> Result<(), AllocError>
        requires { digits ≤ 8 }
        ensures ok { OnOk result (self.new ≡ self.old ++ word_text (hex_digits digits n)) }
    {
        self.push(b" ")?;
        self.push_digits(digits, n)
    }

    /// A word in decimal.
    pub fn push_number(&mut self, n: u64) -> Result<(), AllocError>
        ensures ok { OnOk result (self.new ≡ self.old ++ word_text (decimal n)) }
    {
        self.push(b" ")?;
        self.push_decimal(n)
    }

    /// Octets as a word, two digits for each.
    pub fn push_octets(&mut self, octets: &[u8]) -> Result<(), AllocError>
        ensures ok { OnOk result (self.new ≡ self.old ++ octets_text octets.now) }
    {
        self.push(b" ")?;
        let mut rest = octets;
        while rest.len() > 0 {
            let (part, more) = rest.split_at(rest.len().min(ROW));
            self.push_row(part)?;
            rest = more;
        }
        Ok(())
    }

    /// At most 32 octets, two digits for each.
    fn push_row(&mut self, part: &[u8]) -> Result<(), AllocError>
        requires few { length part.now ≤ 32 }
        ensures ok { OnOk result (self.new ≡ self.old ++ encode_lower part.now) }
    {
        let mut digits = [0; 64];
        let digits = &mut digits[..2 * part.len()];
        // There is room for two digits of each octet, so it isn't refused.
        let _ = hex::encode_to_slice(part, digits);
        self.push(digits)
    }

    /// An address as a word.
    pub fn push_address(&mut self, address: Address) -> Result<(), AllocError>
        ensures ok { OnOk result (self.new ≡ self.old ++ address_text address) }
    {
        self.push(&address_row(address))
    }

    /// A pair as two words.
    pub fn push_pair(&mut self, pair: Pair) -> Result<(), AllocError>
        ensures ok { OnOk result (self.new ≡ self.old ++ pair_text pair) }
    {
        self.push(&pair_row(pair))
    }

    /// A name as one word.
    pub fn push_name(&mut self, name: Name) -> Result<(), AllocError>
        ensures ok { OnOk result (self.new ≡ self.old ++ name_text name) }
    {
        self.push_address(name.src)?;
        self.push(b"/")?;
        self.push_digits(8, name.pair.iv)?;
        self.push(b"/")?;
        self.push_digits(6, name.pair.seq)
    }

    /// TTL, SRC and DST as three words.
    pub fn push_route(&mut self, ttl: u8, src: Address, dst: Address) -> Result<(), AllocError>
        ensures ok { OnOk result (self.new ≡ self.old ++ route_text ttl src dst) }
    {
        self.push(&route_row(ttl, src, dst))
    }
}
