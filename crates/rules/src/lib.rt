// The numbers and the types that document 01 speaks of, with the numbers of phases and reasons, and one check of the page. The rules over them stand in specs/, the
// theorems in proofs/.
#![tactic(auto)]

ghost use Rattle.std.specs.Prelude.{◌≡◌, [], ◌∷◌};
ghost use Rattle.rules.specs.Record.{phase_number};
ghost use Rattle.rules.specs.Fault.{reason_number};
ghost use Rattle.rules.specs.Refusals.{◌gives◌, verdict};

// Numbers of this product, as in specs/Numbers.antt. Staging area 16,384 bytes.
pub const AREA_SIZE: usize = 16384;

// Longest piece 512.
pub const LONGEST_PIECE: u32 = 512;

// Answer buffer at least 132 (document 02, T-04).
pub const ANSWER_ROOM: usize = 132;

// Verification 8 ticks.
pub const VERIFICATION: u8 = 8;

// Wrong passphrases before the limit: 10.
pub const ATTEMPT_LIMIT: u8 = 10;

// Context numbers 1 to 4,294,967,295.
pub const LAST_CONTEXT: u32 = 4294967295;

// The replay program: 544-byte records.
pub const LOG_RECORD: usize = 544;

// Request length at most 536.
pub const LONGEST_REQUEST: u16 = 536;

// The largest count of a report: 4,294,967,295 (document 02, T-01).
pub const LARGEST_COUNT: u32 = 4294967295;

// An image's records of 128 bytes, at most 128 of them, and the places of their fields, as in specs/Image.antt.
pub const IMAGE_RECORD: usize = 128;

pub const MOST_RECORDS: usize = 128;

pub const NUMBER_PLACE: usize = 0;

pub const COUNT_PLACE: usize = 2;

pub const VERSION_PLACE: usize = 4;

pub const PAYLOAD_PLACE: usize = 12;

pub const SUM_PLACE: usize = 124;

// The device record's phase.
#[derive(Clone, Copy, PartialEq, Eq)]
pub enum Phase {
    Idle,
    Receiving,
    Verifying,
    Staged,
    Failed,
}

// The phases are numbered in the page's order.
impl From<Phase> for u8 {
    ghost from_gives = { λ phase number. number ≡ phase_number phase };

    fn from(phase: Phase) -> u8 {
        match phase {
            Phase::Idle => 0,
            Phase::Receiving => 1,
            Phase::Verifying => 2,
            Phase::Staged => 3,
            Phase::Failed => 4,
        }
    }
}

// The device record's firmware part: the module's own current context (document 02, T-09), bytes received, ticks left, running and staged version; and in Failed, of
// the image's first fault (T-03), the reason and the faulty record's number. The reason stays a number: a record may hold any byte there (device_decode::round_trip).
#[derive(Clone, Copy)]
pub struct Transfer {
    pub phase: Phase,
    pub current: u32,
    pub received: u32,
    pub ticks: u8,
    pub reason: u8,
    pub faulty: u8,
    pub running: u64,
    pub staged: u64,
}

// The three thresholds with their enable bits.
#[derive(Clone, Copy, Default)]
pub struct Thresholds {
    pub enable: u16,
    pub spare: u8,
    pub media: u16,
    pub controller: u16,
}

// Security enabled, locked, frozen, wrong attempts, passphrase.
#[derive(Clone, Copy)]
pub struct Security {
    pub enabled: bool,
    pub locked: bool,
    pub frozen: bool,
    pub attempts: u8,
    pub passphrase: [u8; 32],
}

// The last health reading: spare, media and controller temperature words (document 02, T-04).
#[derive(Clone, Copy, Default)]
pub struct Reading {
    pub spare: u8,
    pub media: u16,
    pub controller: u16,
}

// A module's device record. The trips byte is kept beside the thresholds and the reading that it follows from (document 02, T-08).
#[derive(Clone, Copy)]
pub struct Device {
    pub transfer: Transfer,
    pub thresholds: Thresholds,
    pub security: Security,
    pub reading: Reading,
    pub trips: u8,
}

// The cabinet's record (document 02, T-09): the contexts given out so far, which both modules share, and modules 0 and 1.
#[derive(Clone, Copy)]
pub struct Cabinet {
    pub contexts: u32,
    pub first: Device,
    pub second: Device,
}

// What a refusal gives: an R number, which writes nothing, or a status with its extended number. They stay numbers: document 01 has no other names for them, and is
// read beside the definitions (Refusals.R1Check and its like).
#[derive(Clone, Copy)]
pub enum Refusal {
    R { number: u8 },
    Status { status: u16, ext: u16 },
}

// What comes of an event's checks: it is accepted, or refused.
pub type Verdict = Result<(), Refusal>;

impl Refusal {
    // One check: where its test is true, this refusal is given.
    #[tactic(auto, unfolding(crate::specs::Refusals::verdict))]
    pub fn when(self, test: bool) -> Verdict
        ensures { result ≡ verdict ((test gives self) ∷ []) }
    {
        if test { Err(self) } else { Ok(()) }
    }
}

// The reply to an event: the verdict, and how many bytes of the answer buffer were written.
#[derive(Clone, Copy)]
pub struct Reply {
    pub verdict: Verdict,
    pub length: usize,
}

// The functions of the table, by name. `Unserved` stands for every index that the table lacks.
#[derive(Clone, Copy)]
pub enum Function {
    Mask,
    GetHealth,
    GetThreshold,
    GetFwInfo,
    Start,
    Send,
    Finish,
    Query,
    SetThreshold,
    GetSecurityState,
    SetPassphrase,
    Disable,
    Unlock,
    Freeze,
    Unserved,
}

// How many bytes a request has: so many exactly, or so many and any number after them.
#[derive(Clone, Copy, PartialEq, Eq)]
pub enum RequestLength {
    Exactly(usize),
    AtLeast(usize),
}

// A row of the table: the function, the first revision that serves it, its request bytes, its answer bytes.
#[derive(Clone, Copy)]
pub struct Row {
    pub function: Function,
    pub since: u8,
    pub request: RequestLength,
    pub answer: usize,
}

// Why the received bytes are no good image, in the order of the tests: the size; then of a record its number, count, version and sum.
#[derive(Clone, Copy, PartialEq, Eq)]
pub enum Reason {
    Size,
    Number,
    Count,
    Version,
    Sum,
}

// They are numbered 1 to 5, in that order.
impl From<Reason> for u8 {
    ghost from_gives = { λ reason number. number ≡ reason_number reason };

    fn from(reason: Reason) -> u8 {
        match reason {
            Reason::Size => 1,
            Reason::Number => 2,
            Reason::Count => 3,
            Reason::Version => 4,
            Reason::Sum => 5,
        }
    }
}

// The first fault of a bad image: a reason and a record number.
#[derive(Clone, Copy, PartialEq, Eq)]
pub struct FirstFault {
    pub reason: Reason,
    pub number: u8,
}

// What the received bytes are: a good image with its version, or a bad one with its first fault.
pub type Image = Result<u64, FirstFault>;

// What a 544-byte record of a log says. A call, a power cycle and a reading name their module (document 02, T-09).
#[derive(Clone, Copy)]
pub enum Entry {
    Call {
        named: u8,
        host: u8,
        revision: u16,
        function: u16,
        length: u16,
    },
    Tick,
    Power {
        named: u8,
    },
    Health {
        named: u8,
        reading: Reading,
    },
    Bad,
}

// A report's counts beside its grid: function 0 calls, which answer a mask; ticks; power cycles; readings; bad records; short tails.
#[derive(Clone, Copy, Default)]
pub struct Counts {
    pub masks: u32,
    pub ticks: u32,
    pub powers: u32,
    pub readings: u32,
    pub bads: u32,
    pub shorts: u32,
}

// Why no image is made.
#[derive(Clone, Copy, PartialEq, Eq)]
pub enum NotMade {
    VersionZero,
    PayloadOver128Records,
    OutputTooShort,
}

// What making an image comes to: how many bytes were written, or why none was.
pub type Making = Result<usize, NotMade>;

// Why no image is read back.
#[derive(Clone, Copy, PartialEq, Eq)]
pub enum NotRead {
    NotGoodImage,
    OutputTooShort,
}

// What reading an image back comes to, likewise.
pub type ReadingBack = Result<usize, NotRead>;

// A report of two logs: how many leading places are equal, how many places differ, and how many bytes are left over.
#[derive(Clone, Copy, PartialEq, Eq)]
pub struct Compared {
    pub leading: u64,
    pub differing: u64,
    pub left: u64,
}

// More places differ than the list holds, and how many in all.
#[derive(Clone, Copy, PartialEq, Eq)]
pub struct ListFull {
    pub differing: u64,
}

// What a comparison of two logs comes to.
pub type Comparison = Result<Compared, ListFull>;
