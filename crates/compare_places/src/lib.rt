// The places of two logs, one after another: what was counted so far, and the list of those that differ.
#![tactic(auto)]

ghost use Rattle.std.specs.Prelude.{◌≡◌, ◌+◌, ◌*◌, ◌/◌, ◌≤◌, ◌<◌, length, set};
ghost use Rattle.rules.specs.Log.{record_size};
ghost use Rattle.compare_places.specs.SoFar.{most_places, Counted, none_places, place_counted, place_listed, counted_to, listed_to, part_counted, part_listed};

use rules::LOG_RECORD;

// How many places were compared, how many of them lead and are equal, and how many differ.
// No ghost field says that at most all places differ: `compare_turns::Told::put` takes any value, and asks nothing of what it counted.
#[derive(Clone, Copy)]
pub struct SoFar {
    pub places: u64,
    pub leading: u64,
    pub differing: u64,
}

impl SoFar {
    // Before the first place.
    pub fn none() -> SoFar
        ensures { result ≡ none_places }
    {
        SoFar {
            places: 0,
            leading: 0,
            differing: 0,
        }
    }

    // One place more, of which these bytes are compared. Whether it is equal is told from all of them at once; only where it is not the fields are looked at. What the
    // list has no room for is counted all the same.
    fn with_place(self, a: &[u8], b: &[u8], list: &mut [u64]) -> SoFar
        requires { Counted self × (length a.now ≡ length b.now) }
        ensures value { result ≡ place_counted self a.now b.now }
        ensures list_after { list.new ≡ place_listed self a.now b.now list.old }
    {
        let places = self.places + 1;
        if bytes_base::same(a, b) {
            let leading = if self.leading == self.places {
                places
            } else {
                self.leading
            };
            return SoFar {
                places,
                leading,
                ..self
            };
        }
        let fields = compare_fields::fields(a, b);
        let at = self.differing as usize;
        if at < list.len() {
            list[at] = self.places * 64 + fields;
        }
        SoFar {
            places,
            differing: self.differing + 1,
            ..self
        }
    }

    // The first places of two parts, all of them whole. Their length is a constant, for which the compiler unrolls the comparison: with `chunks`, whose last is cut, an
    // equal place was counted at 238 instructions, and with a constant length at 150.
    fn with_whole(self, first: &[u8], second: &[u8], whole: usize, list: &mut [u64]) -> SoFar
        requires whole_bound { (self.places + whole < most_places) × (self.differing ≤ self.places) }
        requires first_len { (length first.now ≡ length second.now) × (whole * record_size ≤ length first.now) }
        ensures value { result ≡ counted_to self first.now second.now whole }
        ensures list_after { list.new ≡ listed_to self first.now second.now list.old whole }
    {
        let mut counted = self;
        for j in 0..whole {
            let at = j * LOG_RECORD;
            let end = at + LOG_RECORD;
            counted = counted.with_place(&first[at..end], &second[at..end], list);
        }
        counted
    }

    // The places of two parts of the same length, the last of which may be cut.
    pub fn with_part(self, first: &[u8], second: &[u8], list: &mut [u64]) -> SoFar
        requires record_size_bound { (self.places + length first.now / record_size < most_places) × (self.differing ≤ self.places) }
        requires first_len { length first.now ≡ length second.now }
        ensures value { result ≡ part_counted self first.now second.now }
        ensures list_after { list.new ≡ part_listed self first.now second.now list.old }
    {
        let whole = first.len() / LOG_RECORD;
        let at = whole * LOG_RECORD;
        let counted = self.with_whole(first, second, whole, list);
        if first.len() <= at {
            return counted;
        }
        counted.with_place(&first[at..], &second[at..], list)
    }
}
