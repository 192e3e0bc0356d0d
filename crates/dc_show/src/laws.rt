//! Laws over the definitions alone, for proofs of the layers above.

ghost use Rattle.std.specs.Prelude.{◌≡◌, ℕ, List};
ghost use Rattle.dc_show.specs.declared.error.FrameFault.{FrameFault as Fault};
ghost use Rattle.dc_show.specs.Shown.{ShowsLine, RefusesLine, Shows, Refuses};

/// A line has one text at most, or one fault, and never both.
pub fn one_answer_of_line()
    ensures text { (number : ℕ) (line s t : List ℕ) → ShowsLine number line s → ShowsLine number line t → s ≡ t }
    ensures never_both { (number : ℕ) (line text : List ℕ) (fault : Fault) → ShowsLine number line text → RefusesLine line fault → ⊥ }
    ensures fault { (line : List ℕ) (f g : Fault) → RefusesLine line f → RefusesLine line g → f ≡ g }
{}

/// An input has one text at most, or one first bad line with one fault, and never both.
pub fn one_answer()
    ensures text { (bytes s t : List ℕ) → Shows 1 bytes s → Shows 1 bytes t → s ≡ t }
    ensures never_both { (bytes text : List ℕ) (line : ℕ) (fault : Fault) → Shows 1 bytes text → Refuses 1 bytes line fault → ⊥ }
    ensures refusal { (bytes : List ℕ) (m n : ℕ) (f g : Fault) → Refuses 1 bytes m f → Refuses 1 bytes n g → (m ≡ n) × (f ≡ g) }
{}
