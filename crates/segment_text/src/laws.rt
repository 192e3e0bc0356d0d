//! Laws over the definitions alone, for proofs of the layers above.

ghost use Rattle.std.specs.Prelude.{◌≡◌, ◌≤◌, ℕ, List, length};
ghost use Rattle.segment_file.specs.Legal.{IsLegal};
ghost use Rattle.segment_file.specs.Segment.{SegmentValue};
ghost use Rattle.segment_file.specs.Told.{IsSegmentText};
ghost use Rattle.segment_file.specs.Written.{segment_text};
ghost use Rattle.segment_text.specs.Migrated.{migrated};

/// Migration keeps the slaves and the losses, and of the head all but the version, which is 2 then. What is legal
/// stays legal, and the text of the migrated segment says it. A second migration changes nothing: what is read of
/// the text of a migrated segment, migrated again, has that text.
pub fn migration_keeps_segments()
    ensures rows { (s : SegmentValue) → (migrated s).rows ≡ s.rows }
    ensures losses { (s : SegmentValue) → (migrated s).losses ≡ s.losses }
    ensures head { (s : SegmentValue) → (migrated s).head ≡ record s.head { version = 2 } }
    ensures newest { (s : SegmentValue) → s.head.version ≡ 2 → migrated s ≡ s }
    ensures legal { (s : SegmentValue) → IsLegal s → IsLegal (migrated s) }
    ensures text { (s : SegmentValue) → IsLegal s → IsSegmentText (segment_text (migrated s)) (migrated s) }
    ensures once { (s : SegmentValue) → migrated (migrated s) ≡ migrated s }
    ensures again { (s t : SegmentValue) → IsLegal s → IsSegmentText (segment_text (migrated s)) t
        → segment_text (migrated t) ≡ segment_text (migrated s) }
{}

/// A written file has at most 16,777,216 bytes, which is the longest input that is read.
pub fn written_files_are_short()
    ensures { (s : SegmentValue) → IsLegal s → length (segment_text s) ≤ 16777216 }
{}
