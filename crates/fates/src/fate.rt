// A command in DNLOAD data: its form, the level, the address, at last the whole length; then it is done.
ghost use Rattle.std.specs.Prelude.{◌≡◌};
ghost use Rattle.rules.specs.Session.{idle};
ghost use Rattle.rules.specs.Result.{board as board_of};
ghost use Rattle.fates.specs.Fate.{fate as fate_for, failure_of, sized_fate};
ghost use Rattle.fates.specs.Obeyed.{Judged, Fated};

use crate::perform::perform;
use command::{BAD_ADDRESS_STATUS, Command, Parts};
use config::Config;
use levels::level_status;
use memory::{EEPROM_SIZE, FLASH_SIZE};
use reader::{Misfit, judge};
use rules::Answer;

// What a command that is not taken does: it sets an error status, or it stalls.
#[derive(Clone, Copy, Debug, PartialEq, Eq)]
pub enum Failure {
    Sets(u8),
    Stops,
}

impl From<Misfit> for Failure {
    ghost from_gives = { λ misfit failure. failure ≡ failure_of misfit };

    fn from(misfit: Misfit) -> Failure {
        match misfit {
            Misfit::BadAddress => Failure::Sets(BAD_ADDRESS_STATUS),
            Misfit::WrongLength => Failure::Stops,
        }
    }
}

// A command whose form is right. The level is asked before what the judge found of address and length.
fn obey(
    config: Config,
    command: Command,
    fit: Result<Parts, Misfit>,
    sent: &[u8],
    flash: &mut [u8],
    eeprom: &mut [u8],
) -> Result<Answer, Failure>
    requires { Judged command fit sent.now flash.old eeprom.old }
    ensures { let b = board_of idle config flash.old eeprom.old in
        Fated b (fate_for b command sent.now) result flash.new eeprom.new }
{
    let level = config::level_of(config);
    let status = level_status(command, level);
    let refused = status != 0x00;
    if refused {
        return Err(Failure::Sets(status));
    }
    let parts = fit?;
    Ok(perform(config, command, parts, sent, flash, eeprom))
}

// What becomes of the command in a DNLOAD's data: the answer of one that is taken, or its failure. Memories that have not their sizes are
// not touched: it stalls.
pub fn fate_of(
    config: Config,
    sent: &[u8],
    flash: &mut [u8],
    eeprom: &mut [u8],
) -> Result<Answer, Failure>
    ensures { let b = board_of idle config flash.old eeprom.old in
        Fated b (sized_fate b sent.now) result flash.new eeprom.new }
{
    if flash.len() != FLASH_SIZE || eeprom.len() != EEPROM_SIZE {
        return Err(Failure::Stops);
    }
    let (command, fit) = judge(sent).ok_or(Failure::Stops)?;
    obey(config, command, fit, sent, flash, eeprom)
}
