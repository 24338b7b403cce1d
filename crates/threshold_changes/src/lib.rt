// Document 01, "Thresholds": what an accepted Set Threshold changes, in the thresholds' part of the record.
#![tactic(auto)]

ghost use Rattle.std.specs.Prelude.{◌≡◌, length};
ghost use Rattle.rules.specs.Thresholds.{set_threshold_of, threshold_change};

use bytes_numbers::FromBytes;
use rules::Thresholds;

// Enable bits 3 to 15 are masked off, the form that the page names: an accepted Set has none of them (T-05). The temperature words are kept bit for bit.
pub fn set(h: Thresholds, request: &[u8]) -> Thresholds
    requires { length request.now ≡ 7 }
    ensures { result ≡ threshold_change h (set_threshold_of request.now) }
{
    Thresholds {
        enable: u16::read(request, 0) & 7,
        spare: u8::read(request, 2),
        media: u16::read(request, 3),
        controller: u16::read(request, 5),
    }
}
