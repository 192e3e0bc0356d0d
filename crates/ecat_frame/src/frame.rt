ghost use Rattle.std.specs.Prelude.{◌≡◌, ◌+◌, ◌<◌, ◌≤◌, Some, slice_get, length, drop, IfSome, IfOk, IfErr, IsOk, Ok, Err};
ghost use Rattle.ecat_frame.specs.Faults.{IsFault};
ghost use Rattle.ecat_frame.specs.declared.error.FrameError.{FrameError};
ghost use Rattle.ecat_frame.specs.FrameGrammar.{FrameValue, IsFrame, InGrammar, header_word, length_word_of, more, spelling};
ghost use Rattle.ecat_frame.specs.Changed.{answered, changed, put};
ghost use Rattle.ecat_frame.specs.Difference.{first_difference};
ghost use Rattle.ecat_frame.specs.Reading.{seen};

use crate::bytes::{data_length, datagrams_in, place_of, read_word, write_part, write_word};
use crate::datagram::Datagram;
use crate::difference::{head_difference, word_difference};
use crate::error::FrameError;
use crate::layout::{ADP, FIRST, HEADER, MAX_LENGTH, OVERHEAD, PAYLOAD};
use crate::scan::check;
use std::marker::Model;

/// A frame: two addresses and one or more datagrams, as ETG.1000.4 lays them out, and padding, which may be
/// missing by this project's rule (`IsFrame` of `specs/FrameGrammar.antt`).
// Behind its bytes the array has zeros, so that equal frames are equal arrays.
#[derive(Clone, Copy, Debug)]
pub struct Frame {
    pub(crate) bytes: [u8; MAX_LENGTH],
    pub(crate) len: usize,
    pub(crate) count: usize,
}

impl Model for Frame {
    ghost use Rattle.ecat_frame.specs.FrameGrammar.{FrameValue};

    ghost Value = { FrameValue };

    ghost use Rattle.ecat_frame.specs.InsideFrame.{value_of, inside_of, IsKept, inside_of-value_of};

    ghost view = { value_of };

    ghost invariant = { IsKept };

    ghost inverse = { inside_of };

    ghost inverse_ok = { inside_of-value_of };
}

impl Frame {
    ghost use Rattle.ecat_frame.specs.InsideFrame.{BeginsAt};

    /// The frame that these bytes are. Padding may be missing; there is at most as much of it as makes
    /// the frame 60 bytes. Each error comes exactly where `IsFault` of `specs/Faults.antt` says so.
    pub fn from_bytes(bytes: &[u8]) -> Result<Frame, FrameError>
        ensures ok { IfOk result (λ f. spelling f ≡ bytes.now) }
        ensures valid { IfOk result (λ f. IsFrame f) }
        ensures only { InGrammar bytes.now → IsOk result }
        ensures reads_back { (f : FrameValue) → IsFrame f → spelling f ≡ bytes.now → result ≡ Ok f }
        ensures fault { IfErr result (IsFault bytes.now) }
        ensures exactly { (e : FrameError) → IsFault bytes.now e → result ≡ Err e }
    {
        check(bytes)?;
        Ok(Frame::keep(bytes))
    }

    // The frame in its array.
    fn keep(bytes: &[u8]) -> Frame
        requires { InGrammar bytes.now }
        ensures spelling { spelling result ≡ bytes.now }
        ensures valid { IsFrame result }
    {
        let mut kept = [0; MAX_LENGTH];
        write_part(&mut kept, 0, bytes);
        Frame {
            bytes: kept,
            len: bytes.len(),
            count: datagrams_in(bytes),
        }
    }

    /// The bytes of the frame, with the padding.
    pub fn bytes(&self) -> &[u8]
        ensures bytes { result.now ≡ spelling self.now }
        ensures valid { IsFrame self.now }
        ensures grammar { InGrammar result.now }
    {
        &self.bytes[..self.len]
    }

    /// The number of datagrams.
    pub fn count(&self) -> usize
        ensures count { result ≡ length self.now.datagrams }
        ensures some { 0 < result }
        ensures few { result ≤ 124 }
    {
        self.count
    }

    /// Datagram k, counted from 0.
    pub fn datagram(&self, k: usize) -> Datagram<'_>
        requires { k < length self.now.datagrams }
        ensures is { slice_get self.now.datagrams k ≡ Some (seen result) }
        ensures length_word { result.length_word
            ≡ length_word_of (more (drop (k + 1) self.now.datagrams)) (seen result) }
        ensures valid { IsFrame self.now }
    {
        let at = self.place(k);
        Datagram::read(&self.bytes[at..])
    }

    /// Nothing to run: it says for proofs that every frame is one of the grammar.
    pub fn in_grammar(&self)
        ensures { IsFrame self.now }
    {
        let _ = self.bytes();
    }

    /// The first byte at which a reply differs from this frame, which was sent, outside of what may
    /// change on the way: Ethernet addresses, ADP, circulating bit, IRQ, data, working counters and
    /// padding. None comes exactly where there is no such byte.
    pub fn first_difference(&self, reply: &Frame) -> Option<u16>
        ensures { result ≡ first_difference self.now reply.now }
    {
        if let Some(at) = word_difference(self.header_word(), reply.header_word()) {
            return Some((HEADER + at) as u16);
        }
        let mut start = FIRST;
        for k in 0..self.count().min(reply.count()) {
            let sent = self.datagram(k);
            if let Some(at) = head_difference(&sent, &reply.datagram(k)) {
                return Some((start + at) as u16);
            }
            start += OVERHEAD + sent.payload.len();
        }
        None
    }

    fn header_word(&self) -> u16
        ensures is { result ≡ header_word self.now }
        ensures valid { IsFrame self.now }
    {
        read_word(&self.bytes, HEADER)
    }

    // Where datagram k begins.
    fn place(&self, k: usize) -> usize
        requires { k < length self.now.datagrams }
        ensures { BeginsAt self.now k result }
    {
        place_of(&self.bytes, k)
    }

    /// Writes the ADP of datagram k.
    pub fn set_adp(&mut self, k: usize, adp: u16)
        requires { k < length self.old.datagrams }
        ensures changed { self.new
            ≡ changed k (λ d. record d { head = record d.head { adp = adp } }) self.old }
        ensures count { length self.new.datagrams ≡ length self.old.datagrams }
    {
        let at = self.place(k);
        write_word(&mut self.bytes, at + ADP, adp);
    }

    /// Writes the working counter of datagram k.
    pub fn set_wkc(&mut self, k: usize, wkc: u16)
        requires { k < length self.old.datagrams }
        ensures changed { self.new ≡ changed k (λ d. record d { wkc = wkc }) self.old }
        ensures count { length self.new.datagrams ≡ length self.old.datagrams }
    {
        let at = self.place(k);
        let end = at + PAYLOAD + data_length(&self.bytes, at);
        write_word(&mut self.bytes, end, wkc);
    }

    /// Writes the data of datagram k, whose length stays.
    pub fn set_payload(&mut self, k: usize, payload: &[u8])
        requires within { k < length self.old.datagrams }
        requires same_length { IfSome (slice_get self.old.datagrams k)
            (λ d. length payload.now ≡ length d.payload) }
        ensures changed { self.new ≡ changed k (λ d. record d { payload = payload.now }) self.old }
        ensures count { length self.new.datagrams ≡ length self.old.datagrams }
    {
        let at = self.place(k);
        write_part(&mut self.bytes, at + PAYLOAD, payload);
    }

    /// Writes bytes into the data of datagram k, from place `at` of the data on.
    pub fn set_bytes(&mut self, k: usize, at: usize, bytes: &[u8])
        requires within { k < length self.old.datagrams }
        requires inside { IfSome (slice_get self.old.datagrams k)
            (λ d. at + length bytes.now ≤ length d.payload) }
        ensures changed { self.new
            ≡ changed k (λ d. record d { payload = put at bytes.now d.payload }) self.old }
        ensures count { length self.new.datagrams ≡ length self.old.datagrams }
    {
        let start = self.place(k);
        write_part(&mut self.bytes, start + PAYLOAD + at, bytes);
    }

    /// Writes the ADP, the data, whose length stays, and the working counter of datagram k: what a slave
    /// leaves of it.
    pub fn set_answer(&mut self, k: usize, adp: u16, payload: &[u8], wkc: u16)
        requires within { k < length self.old.datagrams }
        requires same_length { IfSome (slice_get self.old.datagrams k)
            (λ d. length payload.now ≡ length d.payload) }
        ensures changed { self.new ≡ changed k (answered adp payload.now wkc) self.old }
        ensures count { length self.new.datagrams ≡ length self.old.datagrams }
    {
        self.set_payload(k, payload);
        self.set_adp(k, adp);
        self.set_wkc(k, wkc);
    }
}
