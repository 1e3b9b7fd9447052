// DNLOAD: a command, or the end of a download.
ghost use Rattle.std.specs.Prelude.{◌≡◌, []};
ghost use Rattle.rules.specs.Session.{session as session_of};
ghost use Rattle.rules.specs.Result.{board as board_of, reply as reply_of, answer};
ghost use Rattle.rules.specs.Requests.{end_plain, end_download};
ghost use Rattle.rules.specs.Answered.{bare, Answered};
ghost use Rattle.fates.specs.Fate.{sized_fate};
ghost use Rattle.downloads.specs.Download.{result_of, downloaded};

use config::Config;
use fates::{Failure, fate_of};
use memory::{EEPROM_SIZE, FLASH_SIZE};
use requests::{quiet, stall};
use rules::{Answer, Outcome, Pending, Session};

// "wLength over 1,103: stall."
const MOST_DATA: u16 = 1103;

// "A status above is set with state 10 and nothing pending, and nothing else moves.": the busy count stays.
fn failed(config: Config, status: u8, busy: u16) -> Answer
    ensures { result ≡ answer (reply_of config Outcome.Done [] (session_of 10 status Pending.Nothing busy)) }
{
    let session = Session {
        state: 10,
        status,
        pending: Pending::Nothing,
        busy,
    };
    quiet(config, Outcome::Done, session)
}

// Data of 1 to 1,103 bytes, in state 2 or 5: what becomes of the command is the answer.
fn command_sent(
    session: Session,
    config: Config,
    sent: &[u8],
    flash: &mut [u8],
    eeprom: &mut [u8],
) -> Answer
    ensures { let b = board_of session config flash.old eeprom.old in
        Answered b (result_of b (sized_fate b sent.now)) result flash.new eeprom.new }
{
    match fate_of(config, sent, flash, eeprom) {
        Ok(answer) => answer,
        Err(Failure::Sets(status)) => failed(config, status, session.busy),
        Err(Failure::Stops) => stall(session, config),
    }
}

// The end of a download that no start is pending for.
fn ended(session: Session, config: Config) -> Answer
    ensures { result ≡ answer (end_plain (bare session config)) }
{
    if session.state == 5 {
        let manifested = Session {
            state: 6,
            pending: Pending::Nothing,
            ..session
        };
        return quiet(config, Outcome::Done, manifested);
    }
    stall(session, config)
}

// wLength 0: a pending start is answered in 3 and 5; else state 5 becomes 6. Both keep the status and the busy count.
fn end_download(session: Session, config: Config) -> Answer
    ensures { result ≡ answer (end_download (bare session config)) }
{
    match session.pending {
        Pending::Start(kind, address) => match session.state {
            3 | 5 => {
                let started = Session {
                    state: 0,
                    pending: Pending::Nothing,
                    ..session
                };
                quiet(config, Outcome::Started(kind, address), started)
            }
            _ => stall(session, config),
        },
        _ => ended(session, config),
    }
}

// DNLOAD with wLength n. Memories that have not their sizes are not touched: it stalls. A command's memories are held to their sizes
// where the command is done.
pub fn dnload(
    session: Session,
    config: Config,
    n: u16,
    sent: &[u8],
    flash: &mut [u8],
    eeprom: &mut [u8],
) -> Answer
    ensures { let b = board_of session config flash.old eeprom.old in
        Answered b (downloaded b n sent.now) result flash.new eeprom.new }
{
    if MOST_DATA < n {
        return stall(session, config);
    }
    if n == 0 {
        if flash.len() != FLASH_SIZE || eeprom.len() != EEPROM_SIZE {
            return stall(session, config);
        }
        return end_download(session, config);
    }
    match session.state {
        2 | 5 => command_sent(session, config, sent, flash, eeprom),
        _ => stall(session, config),
    }
}
