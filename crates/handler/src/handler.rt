// The handler that the USB interrupt calls.
ghost use Rattle.std.specs.Prelude.{length};
ghost use Rattle.rules.specs.Result.{board as board_of};
ghost use Rattle.rules.specs.Step.{ask};
ghost use Rattle.rules.specs.Answered.{Handled};

use config::Config;
use loader::step;
use rules::{Answer, Session};

// "is lent the one session record and updates it in the caller's hands": the step by value, and its session stored back.
pub fn handle(
    session: &mut Session,
    config: Config,
    setup: &[u8],
    sent: &[u8],
    flash: &mut [u8],
    eeprom: &mut [u8],
    reply: &mut [u8],
) -> Answer
    ensures { let b = board_of session.old config flash.old eeprom.old in
        Handled b (ask b setup.now sent.now (length reply.old))
        result session.new flash.new eeprom.new reply.new reply.old }
{
    let answer = step(*session, config, setup, sent, flash, eeprom, reply);
    *session = answer.session;
    answer
}
