// Document 02, T-04: which alarms have tripped. The device record keeps it (T-08): what renews it and what tests it compute it here.
#![tactic(auto)]

ghost use Rattle.std.specs.Prelude.{◌≡◌};
ghost use Rattle.rules.specs.Health.{above, trips};
ghost use Rattle.health_trips.specs.Heights.{height};

use rules::{Reading, Thresholds};

// A temperature word's height above the lowest temperature. It takes no jump, so that a record is judged where it is, by its callers' code.
fn height(word: u16) -> u16
    ensures { result ≡ height word }
{
    if 32768 <= word {
        return 65535 - (word - 1);
    }
    32768 + word
}

// A temperature word is above another, by sign and size; 8000h is 0.
fn above(word: u16, other: u16) -> bool
    ensures { result ≡ above word other }
{
    height(other) < height(word)
}

// Bit 0 spare, bit 1 media, bit 2 controller: enabled, and below or above its threshold. The enable bits, which stand in the same order, go over all three at once.
pub fn trips(h: Thresholds, reading: Reading) -> u8
    ensures { result ≡ trips h reading }
{
    let spare = reading.spare < h.spare;
    let media = above(reading.media, h.media);
    let controller = above(reading.controller, h.controller);
    let past = (spare as u16) | ((media as u16) << 1) | ((controller as u16) << 2);
    (h.enable & past) as u8
}
