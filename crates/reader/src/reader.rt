// The loader's command reader.
ghost use Rattle.std.specs.Prelude.{◌≡◌};
ghost use Rattle.command.specs.Reader.{read_command, reading_status};
ghost use Rattle.reader.specs.Payload.{fault_of};

use crate::payload::{Misfit, judge};
use command::{Command, Fault, Parts};

impl From<Misfit> for Fault {
    ghost from_gives = { λ misfit fault. fault ≡ fault_of misfit };

    fn from(misfit: Misfit) -> Fault {
        match misfit {
            Misfit::BadAddress => Fault::BadAddress,
            Misfit::WrongLength => Fault::Stall,
        }
    }
}

// The status of an answer. Stays: C is given it as a byte.
pub fn reading_status(reading: Result<(Command, Parts), Fault>) -> u8
    ensures { result ≡ reading_status reading }
{
    match reading {
        Ok(_) => 0x00,
        Err(fault) => fault.number(),
    }
}

// Reads the data of a DNLOAD: the command with its parts, stall or 08h.
pub fn read_command(sent: &[u8]) -> Result<(Command, Parts), Fault>
    ensures { result ≡ read_command sent.now }
{
    let (command, fit) = judge(sent).ok_or(Fault::Stall)?;
    Ok((command, fit?))
}
