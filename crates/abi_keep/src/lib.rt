// What a C function makes of an outcome: the number that its caller is told, and the record's bytes, written where they are kept.
#![tactic(auto)]

ghost use Rattle.std.specs.Prelude.{◌≡◌, ◌≤◌, pos};
ghost use Rattle.rules.specs.Numbers.{answer_room};
ghost use Rattle.abi_keep.specs.Kept.{told, writes, kept_by, Leaves, Keepable, KeepableNamed};

use rules::{Cabinet, Refusal, Reply, Verdict};

// What the caller is told: the answer's length, or an R number negated.
fn number(reply: Reply) -> i32
    requires { reply.length ≤ answer_room }
    ensures { result ≡ told reply }
{
    match reply.verdict {
        Err(Refusal::R { number }) => -i32::from(number),
        _ => reply.length as i32,
    }
}

// The record is written where the event was accepted or an attempt is counted.
fn writes(verdict: Verdict) -> bool
    ensures { result ≡ writes verdict }
{
    match verdict {
        Ok(()) => true,
        Err(Refusal::R { number: _ }) => false,
        Err(Refusal::Status { status, ext: _ }) => status == 11,
    }
}

// A tick's: all of the record.
pub fn keep(reply: Reply, c: Cabinet, bytes: &mut [u8]) -> i32
    requires { Keepable reply bytes.old }
    ensures { Leaves (told reply) (kept_by reply.verdict c bytes.old) result bytes.new }
{
    if writes(reply.verdict) {
        cabinet_encode::put(c, bytes);
    }
    number(reply)
}

// Any other event's: its module's bytes and the contexts given out, since the rest is as it was.
pub fn keep_named(reply: Reply, c: Cabinet, named: u64, bytes: &mut [u8]) -> i32
    requires { KeepableNamed reply c named bytes.old }
    ensures { Leaves (told reply) (kept_by reply.verdict c bytes.old) result bytes.new }
{
    if writes(reply.verdict) {
        cabinet_encode::put_named(c, named, bytes);
    }
    number(reply)
}
