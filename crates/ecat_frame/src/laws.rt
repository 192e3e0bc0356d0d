//! Laws over the definitions alone, for proofs of the layers above.

ghost use Rattle.std.specs.Prelude.{◌≡◌, ◌↔◌, ◌<◌, ℕ, List, Some, None, slice_get, length};
ghost use Rattle.ecat_frame.specs.Changed.{answered, changed};
ghost use Rattle.ecat_frame.specs.Difference.{first_difference, wiped};
ghost use Rattle.ecat_frame.specs.FrameGrammar.{DatagramValue, FrameValue, IsFrame, spelling};

/// Bytes that are those of two frames are those of one.
pub fn bytes_determine_frame()
    ensures { (f g : FrameValue) → IsFrame f → IsFrame g → spelling f ≡ spelling g → f ≡ g }
{}

/// Two frames have no difference exactly where they are equal with what may change wiped.
pub fn no_difference()
    ensures { (f g : FrameValue) → IsFrame f → IsFrame g → (first_difference f g ≡ None) ↔ (wiped f ≡ wiped g) }
{}

/// What a slave answers in a datagram is wiped with it.
pub fn answer_is_wiped()
    ensures { (k adp wkc : ℕ) (payload : List ℕ) (f : FrameValue) (d : DatagramValue) → slice_get f.datagrams k ≡ Some d
        → length payload ≡ length d.payload → wiped (changed k (answered adp payload wkc) f) ≡ wiped f }
{}
