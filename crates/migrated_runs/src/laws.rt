//! Laws over the definitions alone, for every segment and the same segment in version 2.

ghost use Rattle.std.specs.Prelude.{◌≡◌, ◌≤◌, ◌↔◌, ℕ, Bool, List, Option, None, length};
ghost use Rattle.dc_bench.specs.BenchState.{BenchState};
ghost use Rattle.segment_file.specs.Segment.{SegmentValue};
ghost use Rattle.segment_start.specs.Start.{started_segment};
ghost use Rattle.segment_text.specs.Migrated.{migrated};
ghost use Rattle.run_of_file.specs.MasterOfFile.{master_of};
ghost use Rattle.run_of_file.specs.RunOfFile.{commissioned, settled, armed, ran, run_of};
ghost use Rattle.bench_report.specs.Reports.{drill_text, report_text, table_text};
ghost use Rattle.dc_words.specs.declared.command.Command.TheVariants.{Run, Delays, Check, Migrate};
ghost use Rattle.dc_top.specs.Answers.{RefusesBy, ServedBy, Writes, input_limit};
ghost use Rattle.dc_top.specs.CheckText.{check_text};
ghost use Rattle.dc_top.specs.declared.outcome.Outcome.{Outcome};
ghost use Rattle.dc_top.specs.declared.outcome.Outcome.TheVariants.{NoMemory};

/// The run of a migrated segment is that of the segment: its master is told the same, its slaves begin alike, and each
/// phase ends alike.
pub fn migration_changes_no_run()
    ensures master { (s : SegmentValue) → master_of (migrated s) ≡ master_of s }
    ensures start { (s : SegmentValue) → started_segment (migrated s) ≡ started_segment s }
    ensures commissioned { (s : SegmentValue) → commissioned (migrated s) ≡ commissioned s }
    ensures settled { (s : SegmentValue) → settled (migrated s) ≡ settled s }
    ensures armed { (s : SegmentValue) → armed (migrated s) ≡ armed s }
    ensures ran { (s : SegmentValue) → ran (migrated s) ≡ ran s }
    ensures whole { (s : SegmentValue) → run_of (migrated s) ≡ run_of s }
{}

/// What is written of a bench is the same for both: the table of its delays, its report and its drill. And so are the
/// numbers that are written of the segment alone.
pub fn migration_changes_no_report()
    ensures table { (s : SegmentValue) (b : BenchState) → table_text (migrated s) b ≡ table_text s b }
    ensures report { (s : SegmentValue) (b : BenchState) (edges : Bool) → report_text (migrated s) b edges ≡ report_text s b edges }
    ensures drill { (s : SegmentValue) (b : BenchState) → drill_text (migrated s) b ≡ drill_text s b }
    ensures check { (s : SegmentValue) → check_text (migrated s) ≡ check_text s }
{}

/// Over the file that `migrate` has written of an input the program has the same answers to `run`, `delays` and `check` as
/// over that input, with the same bytes and the same bench.
pub fn migrated_files_are_answered_alike()
    ensures run { (bytes file : List ℕ) → Writes Migrate bytes file None
        → (edges : Bool) (o : Outcome) (taken taken' : Option (List ℕ)) (bench : Option BenchState)
        → ServedBy (Run edges) file o taken taken' bench ↔ ServedBy (Run edges) bytes o taken taken' bench }
    ensures delays { (bytes file : List ℕ) → Writes Migrate bytes file None
        → (o : Outcome) (taken taken' : Option (List ℕ)) (bench : Option BenchState)
        → ServedBy Delays file o taken taken' bench ↔ ServedBy Delays bytes o taken taken' bench }
    ensures check { (bytes file : List ℕ) → Writes Migrate bytes file None
        → (o : Outcome) (taken taken' : Option (List ℕ)) (bench : Option BenchState)
        → ServedBy Check file o taken taken' bench ↔ ServedBy Check bytes o taken taken' bench }
{}

/// What `migrate` has written is short enough to be read again. Over it `migrate` refuses nothing, but for want of memory, and
/// what it writes is exactly that again.
pub fn migration_ends()
    ensures short { (bytes file : List ℕ) → Writes Migrate bytes file None → length file ≤ input_limit }
    ensures accepted { (bytes file : List ℕ) → Writes Migrate bytes file None → (o : Outcome) (bench : Option BenchState)
        → RefusesBy Migrate file o bench → o ≡ NoMemory }
    ensures same { (bytes file : List ℕ) → Writes Migrate bytes file None → (text : List ℕ) (bench : Option BenchState)
        → Writes Migrate file text bench ↔ ((text ≡ file) × (bench ≡ None)) }
{}
