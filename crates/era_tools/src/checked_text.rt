//! Gives what a check found, and tells how the run ended. It takes no memory.

ghost use Rattle.std.specs.Prelude.{◌≡◌};
ghost use Rattle.era_tools.specs.CheckTool.{checked_status, checked_text};
ghost use Rattle.era_tools.specs.Printing.{HasSinkCause, Prints};

use crate::printing::{print, print_damage, print_number, print_numbers};
use crate::status::Status;
use era_base::Sink;
use era_check::Checked;
use era_line::Part::Text;

/// Gives what a check found.
pub fn print_checked<K: Sink>(sink: &mut K, found: Checked) -> Status
    ensures printed { Prints (K.given sink.old) (K.given sink.new)
        (checked_text found) (checked_status found) result }
    ensures sink { HasSinkCause (K.faults sink.old) (K.faults sink.new) result }
{
    match found {
        Checked::Clean { era, used } => {
            let (era, used) = (u64::from(era), u64::from(used));
            print_numbers(sink, b"clean ", era, used, Status::Done)
        }
        Checked::Damage { kind, block } => {
            print_damage(sink, b"damage ", kind, block, Status::Damage)
        }
        Checked::Unformatted => print(sink, &[Text(b"refused Unformatted\n")], Status::Refused),
        Checked::MetaSmall { have, need } => {
            print_numbers(sink, b"refused MetaSmall ", have, need, Status::Refused)
        }
        Checked::Fault(count) => print_number(sink, b"fault meta ", count, Status::Fault),
        Checked::Memory => print(sink, &[Text(b"memory\n")], Status::Memory),
    }
}
