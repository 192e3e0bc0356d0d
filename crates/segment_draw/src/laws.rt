//! Laws over the definitions alone, for proofs of the layers above.

ghost use Rattle.std.specs.Prelude.{◌≡◌, ℕ, ◌≤◌, List, length};
ghost use Rattle.std.specs.List.{All};
ghost use Rattle.segment_file.specs.Legal.{IsLegal};
ghost use Rattle.segment_draw.specs.Draws.{AreLow, Draws, draws_at, draws_from, seeded};
ghost use Rattle.segment_draw.specs.Generated.{drawn_segment, generated};

/// A segment of 1 to 256 slaves is legal whatever is drawn for it, as long as each draw is below 2,147,483,647;
/// so are all draws of the generator, from any state, and each segment that it makes.
pub fn drawn_segments_are_legal()
    ensures drawn { (ds : List Draws) → All AreLow ds → 1 ≤ length ds → length ds ≤ 256 → IsLegal (drawn_segment ds) }
    ensures low { (n state : ℕ) → All AreLow (draws_from n state) }
    ensures many { (n state : ℕ) → length (draws_from n state) ≡ n }
    ensures generated { (n seed : ℕ) → 1 ≤ n → n ≤ 256 → IsLegal (generated n seed) }
{}

/// The first thirteen draws of seed 0.
pub fn first_draws()
    ensures { draws_at (seeded 0) ≡ record {
      clockless = 48271;
      narrow = 182605794;
      tp = 1291394886;
      tf = 1914720637;
      cable = 2078669041;
      branch = 407355683;
      parent = 1105902161;
      start_high = 854716505;
      start_low = 564586691;
      period = 1596680831;
      phase = 192302371;
      shift = 1203428207;
      sync1 = 1250328747;
    } }
{}
