// The loop itself. It stands in a file of its own, for what it promises speaks of Logs, whose ghost field may not.

ghost use Rattle.std.specs.Prelude.{◌≡◌, IfErr};
ghost use Rattle.program_logs.specs.declared.Turn.TheVariants.{Nothing};
ghost use Rattle.program_logs.specs.declared.Logs.{Logs};
ghost use Rattle.program_logs.specs.Through.{Through};
ghost use Rattle.program_files.specs.declared.Unwritten.TheVariants.{Closed};

use crate::{Held, Logs, NAME};
use program_files::{PART, System, Unwritten};

// Does a program's work at each turn: where it stands, the buffer, and the log's name. It stops where nobody reads any more what the work writes.
pub fn go_through<R: System, W>(rt: &R, mut work: W) -> Result<(), Unwritten>
where
    W: FnMut(Logs, &[u8; PART], &[u8]) -> Result<(), Unwritten>,
    requires { W.IsAlwaysCallable work }
    ensures through { (first : Logs) × (first.turn ≡ Nothing) × (first.argument ≡ 1) × Through W.step work first result }
    ensures stopped { IfErr result (λ unwritten. unwritten ≡ Closed) }
{
    let mut held = Held {
        log: None,
        part: [0u8; PART],
        name: [0u8; NAME],
    };
    let mut logs = Logs::before(1);
    while let Some(next) = logs.next(rt, &mut held) {
        let shown = work(next, &held.part, &held.name[..next.size]);
        if shown == Err(Unwritten::Closed) {
            return shown;
        }
        logs = next.told(shown);
    }
    Ok(())
}
