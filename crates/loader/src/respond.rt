// One request.
ghost use Rattle.std.specs.Prelude.{◌≡◌, false, length};
ghost use Rattle.rules.specs.Result.{board as board_of};
ghost use Rattle.rules.specs.Requests.{respond as respond_of};
ghost use Rattle.rules.specs.Refusals.{bad_pending};
ghost use Rattle.rules.specs.Step.{ask};
ghost use Rattle.rules.specs.Answered.{Room, Stepped};

use crate::report::{get_state, get_status};
use crate::upload::upload;
use config::Config;
use downloads::dnload;
use refusals::refusal_of;
use requests::{abort, clr_status, quiet, request_of, stall};
use rules::{Answer, Outcome, Request, Session};

// A request that is not refused.
// Stays: the sizes are a `requires`. Arrays cut out of what is lent would be asked their sizes again, and the reply put together anew.
fn respond(
    session: Session,
    config: Config,
    request: Request,
    sent: &[u8],
    flash: &mut [u8],
    eeprom: &mut [u8],
    reply: &mut [u8],
) -> Answer
    requires room { Room flash.old eeprom.old reply.old }
    requires pending_value { bad_pending session.pending ≡ false }
    ensures { let b = board_of session config flash.old eeprom.old in
        Stepped b (respond_of b request sent.now)
        result flash.new eeprom.new reply.new reply.old }
{
    match request {
        Request::Dnload(n) => dnload(session, config, n, sent, flash, eeprom),
        Request::Upload(n) => upload(session, config, n, flash, eeprom, reply),
        Request::GetStatus => get_status(session, config, reply),
        Request::GetState => get_state(session, config, reply),
        Request::ClrStatus => clr_status(session, config),
        Request::Abort => abort(session, config),
        Request::Other => stall(session, config),
    }
}

// Takes one request of any session, configuration, setup, data, memories and reply buffer. A numbered refusal changes nothing.
pub fn step(
    session: Session,
    config: Config,
    setup: &[u8],
    sent: &[u8],
    flash: &mut [u8],
    eeprom: &mut [u8],
    reply: &mut [u8],
) -> Answer
    ensures { let b = board_of session config flash.old eeprom.old in
        Stepped b (ask b setup.now sent.now (length reply.old))
        result flash.new eeprom.new reply.new reply.old }
{
    match refusal_of(session, setup, sent, flash, eeprom, reply) {
        Err(refusal) => quiet(config, Outcome::Refused(refusal.number()), session),
        Ok(()) => respond(
            session,
            config,
            request_of(setup),
            sent,
            flash,
            eeprom,
            reply,
        ),
    }
}
