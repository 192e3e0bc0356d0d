//! Laws over the definitions alone, for proofs of the layers above.

ghost use Rattle.std.specs.Prelude.{◌≡◌, Ok};
ghost use Rattle.serde_json.specs.Data.{Data};
ghost use Rattle.segment_shape.specs.ShapeOf.{ShapeValue, file_of};
ghost use Rattle.segment_shape.specs.Ranges.{IsFile};
ghost use Rattle.segment_shape.specs.Told.{IsText};
ghost use Rattle.segment_shape.specs.Written.{file_data, file_text};

/// In a file that is read each number lies in its range, ids have their form, a slave has what belongs to
/// its kind alone, and no frame is listed twice; and these facts are enough: a file of which they hold is
/// said by a JSON value, the one that is written for it, and by its text, which ends with a line feed.
pub fn files_by_facts()
    ensures read { (d : Data) (s : ShapeValue) → file_of d ≡ Ok s → IsFile s }
    ensures written { (s : ShapeValue) → IsFile s → file_of (file_data s) ≡ Ok s }
    ensures text { (s : ShapeValue) → IsFile s → IsText (file_text s) (file_data s) }
{}
