// Two logs that are read side by side in parts: what is kept from turn to turn, and the report of it.
#![tactic(auto)]

ghost use Rattle.std.specs.Prelude.{◌-◌, ◌≤◌, ◌<◌, ◌≡◌, length};
ghost use Rattle.rules.specs.Compare.{list_room};
ghost use Rattle.program_logs.specs.Turns.{part_size};
ghost use Rattle.compare_text.specs.Lines.{report_text};
ghost use Rattle.text.specs.Wrote.{WroteWithin};
ghost use Rattle.compare_turns.specs.Turned.{most_turns, text_room, Standing, begun, turned, turn_listed, told_of, TextOfTurns};

use compare_places::SoFar;
use rules::{Compared, Comparison, ListFull};

// The list holds 1,000 places; the text has a line of at most 64 bytes for each, and two lines more.
pub const PLACES: usize = 1000;

pub const TEXT: usize = 64064;

// The most turns, 2 to the 40th: a loop has to end, and no log has so many parts.
pub const TURNS: u64 = 1099511627776;

// What was counted so far, and how many bytes are left over.
#[derive(Clone, Copy)]
pub struct Told {
    pub counted: SoFar,
    pub left: u64,
}

impl Told {
    // Before the first turn.
    pub fn begin() -> Told
        ensures value { result ≡ begun }
        ensures standing { Standing most_turns result }
    {
        Told {
            counted: SoFar::none(),
            left: 0,
        }
    }

    // One turn: what both parts have is compared, and what one has more is left over.
    pub fn turn(self, first: &[u8], second: &[u8], list: &mut [u64], turns: u64) -> Told
        requires standing { Standing turns self × (0 < turns) }
        requires parts { (length first.now ≤ part_size) × (length second.now ≤ part_size) }
        ensures value { result ≡ turned self first.now second.now (length first.now) (length second.now) }
        ensures list_after { list.new ≡ turn_listed self first.now second.now (length first.now) (length second.now) list.old }
        ensures standing_2 { Standing (turns - 1) result }
    {
        let both = first.len().min(second.len());
        let left = self.left + (first.len() - both) as u64 + (second.len() - both) as u64;
        let counted = self
            .counted
            .with_part(&first[..both], &second[..both], list);
        Told { counted, left }
    }

    // The report, with a list that holds 1,000 places.
    fn report(self) -> Comparison
        ensures { result ≡ told_of self }
    {
        let differing = self.counted.differing;
        if differing > PLACES as u64 {
            return Err(ListFull { differing });
        }
        Ok(Compared {
            leading: self.counted.leading,
            differing,
            left: self.left,
        })
    }

    // The text of the report, at the front of a buffer.
    pub fn put(self, out: &mut [u8], list: &[u64]) -> usize
        requires { (length list.now ≡ list_room) × (text_room ≤ length out.old) }
        ensures { WroteWithin text_room out.old 0 (report_text (told_of self) list.now) out.new result }
    {
        compare_text::put_report(out, self.report(), list)
    }
}

// What is kept after any turns is what is said of the logs so far, and its text is theirs: the theorem, cited here so that the gate fails where it is gone.
pub fn text_of_turns()
    ensures { TextOfTurns }
{}
