// The phase in code: whether a context is live in it, and whether its module has the staging area.
#![tactic(auto)]

ghost use Rattle.std.specs.Prelude.{◌≡◌};
ghost use Rattle.rules.specs.Record.{live, has_area};

use rules::{Phase, Transfer};

// "It is live in every phase but Idle."
pub fn live(t: Transfer, context: u32) -> bool
    ensures { result ≡ live t context }
{
    t.phase != Phase::Idle && context == t.current
}

// It is Receiving or Verifying.
pub fn has_area(t: Transfer) -> bool
    ensures { result ≡ has_area t }
{
    matches!(&t.phase, Phase::Receiving | Phase::Verifying)
}
