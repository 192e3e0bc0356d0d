ghost use Rattle.std.specs.Prelude.{◌≤◌};

use cable_tree::{Above, Port};
use std::alloc::AllocError;

/// A case that is read word by word. A word ends at a space, a colon or a point.
#[derive(Drop)]
pub(crate) struct Words<'a> {
    rest: &'a str,
    is_refused: bool,
}

impl<'a> Words<'a> {
    pub(crate) fn new(line: &'a str) -> Words<'a> {
        Words {
            rest: line,
            is_refused: false,
        }
    }

    /// The next word, which is empty at the end of the case.
    pub(crate) fn next(&mut self) -> &'a str {
        let (word, rest) = self
            .rest
            .split_once([' ', ':', '.'])
            .unwrap_or((self.rest, ""));
        self.rest = rest;
        word
    }

    /// All that is left, as one word.
    pub(crate) fn last(&mut self) -> &'a str {
        let last = self.rest;
        self.rest = "";
        last
    }

    /// A bound on the number of words that are left.
    pub(crate) fn most(&self) -> usize {
        self.rest.len()
    }

    pub(crate) fn is_empty(&self) -> bool {
        self.rest.is_empty()
    }

    /// Notes a word that is none of those that may stand there; nothing is told of such a case.
    pub(crate) fn refuse(&mut self) {
        self.is_refused = true;
    }

    /// Whether the case was read to its end, and no word was refused.
    pub(crate) fn are_read(&self) -> bool {
        !self.is_refused && self.rest.is_empty()
    }

    /// A number from `least` to `most`. Any other word is refused.
    pub(crate) fn number(&mut self, least: u128, most: u128) -> u128
        requires { least ≤ most }
        ensures { (least ≤ result) × (result ≤ most) }
    {
        match self.next().parse::<u128>() {
            Ok(number) if least <= number && number <= most => number,
            _ => {
                self.refuse();
                least
            }
        }
    }

    /// A DL status, in hexadecimal digits. Any other word is refused.
    pub(crate) fn status(&mut self) -> u16 {
        match u16::from_str_radix(self.next(), 16) {
            Ok(status) => status,
            Err(_) => {
                self.refuse();
                0
            }
        }
    }

    /// A time of 64 bits. Any other word is refused.
    pub(crate) fn time(&mut self) -> u64 {
        self.number(0, 18_446_744_073_709_551_615) as u64
    }

    /// Whether a slave measures, and whether it is a clock. Any other word is refused.
    pub(crate) fn flags(&mut self) -> (bool, bool) {
        match self.next() {
            "clock" => (true, true),
            "only" => (true, false),
            "none" => (false, false),
            _ => {
                self.refuse();
                (false, false)
            }
        }
    }

    /// A number of 32 bits. Any other word is refused.
    pub(crate) fn count(&mut self) -> u32 {
        self.number(0, 4_294_967_295) as u32
    }

    /// Where a row hangs: nowhere, or at a port of another row. Any other words are refused.
    pub(crate) fn place(&mut self) -> Option<Above> {
        let word = self.next();
        if word == "-" {
            return None;
        }
        let row = match word.parse() {
            Ok(row) => row,
            Err(_) => {
                self.refuse();
                0
            }
        };
        let port = match self.next() {
            "1" => Port::P1,
            "2" => Port::P2,
            "3" => Port::P3,
            _ => {
                self.refuse();
                Port::P1
            }
        };
        Some(Above { row, port })
    }
}

/// Writes where a row hangs.
pub(crate) fn place_told(place: Option<Above>, told: &mut String) -> Result<(), AllocError> {
    match place {
        None => told.push_str("-"),
        Some(above) => write!(told, "{}.{}", above.row, port_number(above.port)),
    }
}

pub(crate) fn port_number(port: Port) -> u8 {
    match port {
        Port::P1 => 1,
        Port::P2 => 2,
        Port::P3 => 3,
    }
}

/// Writes a space and a number, or `-`.
pub(crate) fn number_told(number: Option<u64>, told: &mut String) -> Result<(), AllocError> {
    match number {
        None => told.push_str(" -"),
        Some(number) => write!(told, " {number}"),
    }
}
