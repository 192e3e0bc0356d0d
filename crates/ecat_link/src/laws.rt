//! Laws over the definitions alone, for proofs of the layers above. How a caller's exchanges follow its
//! script is a matter of claims that depend on values, which no law can take: there the lemmas of
//! `proofs/Serving.antt` (`serves_none`, `serves_one`, `serves_then`, `serves_weaker`) are what a layer
//! above cites.

ghost use Rattle.std.specs.Prelude.{◌≡◌, ◌<◌, ℕ, ◌+◌, List, ◌++◌, length, Option, Some};
ghost use Rattle.dc_base.specs.Causes.{Rose};
ghost use Rattle.ecat_link.specs.Drive.{Ending, IsDriven, drive};
ghost use Rattle.ecat_link.specs.Exchanges.{Exchange, StepOf, Runs, lost_among};
ghost use Rattle.ecat_link.specs.RoseBy.{RoseBy};
ghost use Rattle.ecat_link.specs.Serves.{Next, End, Sends};

/// Exchanges by a step, and then more of them from where they led, are exchanges by that step.
pub fn runs_then<S>()
    ensures { (step : StepOf S) (es fs : List Exchange) (s t u : Option S)
        → Runs step s es t → Runs step t fs u → Runs step s (es ++ fs) u }
{}

/// Exchanges by the step that the script wants one after another, up to its end, are those of the
/// script's run from that state, with its answer; the link then tells the state in which the run ends.
/// More turns than exchanges suffice for the run.
pub fn run_is<S, A>()
    ensures { (step : StepOf S) (next : List Exchange → Next A) (es : List Exchange) (turns : ℕ) (before : List Exchange)
        (s : S) (t : Option S) (answer : A)
        → Runs step (Some s) es t → Sends next before es → next (before ++ es) ≡ End answer → length es < turns
        → (u : S) × (t ≡ Some u)
        × (drive step next turns before s ≡ Some (record { exchanges = before ++ es; state = u; answer = answer })) }
{}

/// The run of a script is made of exchanges by the step, each what the script wants behind those before it,
/// up to the script's end.
pub fn runs_are_driven<S, A>()
    ensures { (step : StepOf S) (next : List Exchange → Next A) (turns : ℕ) (before : List Exchange) (s : S) (run : Ending S A)
        → drive step next turns before s ≡ Some run → IsDriven step next before s run }
{}

/// Of exchanges and then more of them, those are lost that are lost of either.
pub fn lost_then()
    ensures { (es fs : List Exchange) → lost_among (es ++ fs) ≡ lost_among es + lost_among fs }
{}

/// A count that rose has risen by 1, and one that rose by j and then by k has risen by j + k.
pub fn rose_in_turn()
    ensures one { (a b : ℕ) → Rose a b → RoseBy 1 a b }
    ensures more { (j k a b c : ℕ) → RoseBy j a b → RoseBy k b c → RoseBy (j + k) a c }
{}
