// A tick on the caller's record of the cabinet, in place.
#![tactic(auto)]

ghost use Rattle.rules.specs.Record.{whole_of};
ghost use Rattle.cabinet_clock.specs.InPlace.{TickedInPlace};

use rules::{Cabinet, Reply};

// The record is read, ticked by value, and stored.
pub fn tick_in_place(c: &mut Cabinet, area: &[u8]) -> Reply
    ensures { TickedInPlace (whole_of c.old area.now) result c.new }
{
    let t = cabinet::tick(*c, area);
    *c = t.cabinet;
    t.reply
}
