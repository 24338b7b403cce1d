// A call's line of the fuller trace, with its answer's bytes in hex, written into a lent buffer at a place. It promises how much it writes and no text: the
// line is compared with an independent program's.
#![tactic(auto)]

ghost use Rattle.std.specs.Prelude.{◌+◌, ◌≤◌, length};
ghost use Rattle.rules.specs.Numbers.{answer_room};

// The line of a call: a number of at most 20 digits, a word, the answer's bytes, and the line's end.
pub fn put_answer(out: &mut [u8], at: usize, number: u64, answer: &[u8]) -> usize
    requires { (at + 296 ≤ length out.old) × (length answer.now ≤ answer_room) }
    ensures { result ≤ at + 296 }
{
    let named = text::put_field(out, at, number, b" call ");
    let end = answers_hex::put_hex(out, named, answer);
    text::put(out, end, b"\n")
}
