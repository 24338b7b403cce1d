// Document 01, "Which function index at which revision": the one table of functions, and function 0's mask.
#![tactic(auto)]

ghost use Rattle.std.specs.Prelude.{◌≡◌, length};
ghost use Rattle.rules.specs.Table.{row_of, mask as mask_of};
ghost use Rattle.rules.proofs.page.Fitting.{Fitting};
ghost use Rattle.call_table.specs.Fits.{Fitting-prop};

use rules::RequestLength::{AtLeast, Exactly};
use rules::{Function, RequestLength, Row};

// A call as its host makes it, with the row of its index.
#[derive(Clone, Copy)]
pub struct Call<'a> {
    pub named: u64,
    pub revision: u64,
    pub index: u64,
    pub row: Row,
    pub request: &'a [u8],
    ghost in_table: { row ≡ row_of index },
}

// What a call asks of a function: its request has the bytes that the function reads.
#[derive(Clone, Copy)]
pub struct Asked<'a> {
    pub function: Function,
    pub revision: u64,
    pub request: &'a [u8],
    ghost fits: { Fitting function (length request.now) } by { Fitting-prop function (length request.now) },
}

fn row(function: Function, since: u8, request: RequestLength, answer: usize) -> Row
    ensures { result ≡ record { function = function; since = since; request = request; answer = answer } }
{
    Row {
        function,
        since,
        request,
        answer,
    }
}

// The row of an index, by ranges as the page asks. What the table skips, and all past it, is unserved: from revision 3 on, so never.
#[tactic(auto, using(crate::proofs::Laws::row_at))]
pub fn look_up(index: u64) -> Row
    ensures { result ≡ row_of index }
{
    match index {
        0 => row(Function::Mask, 1, AtLeast(0), 4),
        1 => row(Function::GetHealth, 1, Exactly(0), 132),
        2 => row(Function::GetThreshold, 1, Exactly(0), 12),
        12 => row(Function::GetFwInfo, 2, Exactly(0), 44),
        13 => row(Function::Start, 2, Exactly(0), 8),
        14 => row(Function::Send, 2, AtLeast(12), 4),
        15 => row(Function::Finish, 2, Exactly(8), 4),
        16 => row(Function::Query, 2, Exactly(4), 12),
        17 => row(Function::SetThreshold, 2, Exactly(7), 4),
        19 => row(Function::GetSecurityState, 2, Exactly(0), 12),
        20 => row(Function::SetPassphrase, 2, Exactly(64), 4),
        21 => row(Function::Disable, 2, Exactly(32), 4),
        22 => row(Function::Unlock, 2, Exactly(32), 4),
        23 => row(Function::Freeze, 2, Exactly(0), 4),
        3..=11 | 18 | 24.. => row(Function::Unserved, 3, AtLeast(0), 4),
    }
}

// The functions that a revision serves, bit k for function k.
#[tactic(auto, unfolding(rules::specs::Table::mask))]
pub fn mask(revision: u64) -> u32
    ensures { result ≡ mask_of revision }
{
    match revision {
        1 => (1u32 << 0) | (1u32 << 1) | (1u32 << 2),
        2 => (1u32 << 0) | (1u32 << 1) | (1u32 << 2) | (63u32 << 12) | (31u32 << 19),
        _ => 0,
    }
}
