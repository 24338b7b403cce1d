// The answer's bytes, written over the front of the answer buffer; the bytes past them stay.
#![tactic(auto)]

ghost use Rattle.std.specs.Prelude.{◌≡◌, Bool, List, ◌++◌, ℕ, ◌≤◌, ◌-◌, length};
ghost use Rattle.rules.specs.Numbers.{answer_room};
ghost use Rattle.rules.specs.Bytes.{zeros};
ghost use Rattle.rules.specs.Record.{module_of};
ghost use Rattle.rules.specs.Refusals.{status_bytes, status_length, answer_after};
ghost use Rattle.rules.specs.Module.{call_of, accepted_answer};

use bytes_base::ToBytes;
use rules::{Device, Function};

// 4 bytes for status 1, else the function's length.
pub fn status_length(status: u16, size: usize) -> usize
    ensures { result ≡ status_length status size }
{
    match status {
        1 => 4,
        _ => size,
    }
}

// Four bytes of status and extended number, and zeros up to the length.
pub fn put_status(answer: &mut [u8], status: u16, ext: u16, size: usize)
    requires le_size { 4 ≤ size }
    requires size_in_bounds { size ≤ length answer.old }
    ensures { answer.new ≡ answer_after (status_bytes status ext ++ zeros (size - 4)) answer.old }
{
    status.put(answer, 0);
    ext.put(answer, 2);
    bytes_base::put_zeros(answer, 4, size - 4);
}

// What an accepted call answers, which its request, the area and the other module have no part in: a status alone, where nothing else is named.
pub fn put_accepted(d: Device, given: u32, function: Function, revision: u64, answer: &mut [u8])
    requires { answer_room ≤ length answer.old }
    ensures { (area request : List ℕ) (taken : Bool) → answer.new ≡ answer_after (accepted_answer (module_of d area given taken) (call_of function revision request)) answer.old }
{
    match function {
        Function::Mask => call_table::mask(revision).put(answer, 0),
        Function::GetHealth => health_answers::put_health(d.trips, d.reading, answer),
        Function::GetThreshold => threshold_answers::put_answer(d.thresholds, answer),
        Function::GetFwInfo => transfer_answers::put_info(d.transfer, answer),
        Function::Start => transfer_answers::put_started(given, answer),
        Function::Query => transfer_answers::put_queried(d.transfer, answer),
        Function::GetSecurityState => security_answers::put_state(d.security, answer),
        _ => put_status(answer, 0, 0, 4),
    }
}
