ghost use Rattle.std.specs.Prelude.{◌≤◌};

use std::alloc::{AllocError, Global};

/// A case that is read word by word. A word ends at a space, a colon or a comma.
#[derive(Drop)]
pub(crate) struct Words<'a> {
    rest: &'a str,
    is_refused: bool,
}

impl<'a> Words<'a> {
    pub(crate) fn new(line: &'a str) -> Words<'a> {
        Words {
            rest: line,
            is_refused: false,
        }
    }

    /// The next word, which is empty at the end of the case.
    pub(crate) fn next(&mut self) -> &'a str {
        let (word, rest) = self
            .rest
            .split_once([' ', ':', ','])
            .unwrap_or((self.rest, ""));
        self.rest = rest;
        word
    }

    /// The words up to the next space.
    pub(crate) fn next_group(&mut self) -> &'a str {
        let (group, rest) = self.rest.split_once(' ').unwrap_or((self.rest, ""));
        self.rest = rest;
        group
    }

    /// All that is left, as one word.
    pub(crate) fn last(&mut self) -> &'a str {
        let last = self.rest;
        self.rest = "";
        last
    }

    /// Leaves all words that are left unread.
    pub(crate) fn skip_all(&mut self) {
        self.rest = "";
    }

    /// A bound on the number of words that are left.
    pub(crate) fn most(&self) -> usize {
        self.rest.len()
    }

    pub(crate) fn is_empty(&self) -> bool {
        self.rest.is_empty()
    }

    /// Notes a word that is none of those that may stand there; nothing is told of such a case.
    pub(crate) fn refuse(&mut self) {
        self.is_refused = true;
    }

    /// Whether the case was read to its end, and no word was refused.
    pub(crate) fn are_read(&self) -> bool {
        !self.is_refused && self.rest.is_empty()
    }

    /// A number from `least` to `most`. Any other word is refused.
    pub(crate) fn number(&mut self, least: u64, most: u64) -> u64
        requires { least ≤ most }
        ensures { (least ≤ result) × (result ≤ most) }
    {
        match self.next().parse::<u64>() {
            Ok(number) if least <= number && number <= most => number,
            _ => {
                self.refuse();
                least
            }
        }
    }

    /// A number of 16 bits in hexadecimal digits. Any other word is refused.
    pub(crate) fn digits(&mut self) -> u16 {
        match u16::from_str_radix(self.next(), 16) {
            Ok(number) => number,
            Err(_) => {
                self.refuse();
                0
            }
        }
    }

    /// A difference of 32 bits. Any other word is refused.
    pub(crate) fn difference(&mut self) -> i32 {
        match self.next().parse() {
            Ok(number) => number,
            Err(_) => {
                self.refuse();
                0
            }
        }
    }

    /// A number, or `-` for none. Any other word is refused.
    pub(crate) fn number_or_none(&mut self) -> Option<u64> {
        match self.next() {
            "-" => None,
            word => match word.parse() {
                Ok(number) => Some(number),
                Err(_) => {
                    self.refuse();
                    None
                }
            },
        }
    }

    /// Bytes in hexadecimal digits, or the same ones a number of times, or none. Any other word is refused.
    pub(crate) fn bytes(&mut self, alloc: Global) -> Result<Vec<u8>, AllocError> {
        let word = self.next();
        if word == "-" {
            return Ok(Vec::new(alloc));
        }
        let (digits, times) = word.split_once('*').unwrap_or((word, "1"));
        let Ok(times) = times.parse::<u16>() else {
            self.refuse();
            return Ok(Vec::new(alloc));
        };
        let digits = digits.repeat(alloc, usize::from(times))?;
        match hex::decode(alloc, &digits) {
            Ok(bytes) if !word.is_empty() => Ok(bytes),
            _ => {
                self.refuse();
                Ok(Vec::new(alloc))
            }
        }
    }
}

/// Writes bytes as hexadecimal digits.
pub(crate) fn bytes_told(bytes: &[u8], told: &mut String) -> Result<(), AllocError> {
    for byte in bytes {
        write!(told, "{byte:02x}")?;
    }
    Ok(())
}
