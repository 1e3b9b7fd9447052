// One record.
ghost use Rattle.std.specs.Prelude.{◌≡◌, length, Ok};
ghost use Rattle.plug.specs.Commands.{flash_size};
ghost use Rattle.plug.specs.Step.{board, in_room, obey as obeyed, answer_to, step as stepped};
ghost use Rattle.plug.specs.Answered.{Stepped};

use plug::{Answer, Command, Config, FLASH_SIZE, Outcome};
use plugcommands::perform;
use plugtables::{bad_range, form_of, is_allowed};
use record::{BAD_RECORD, Fields, MOST_DATA, ReadError, TOO_SHORT};
use recordreader::read_record;
use replies::{quiet, say};

// "2 when the flash isn't 65,536 bytes"
const WRONG_FLASH: u8 = 2;

// "then 17 for an unknown type, a backward range or one past FFFFh; then `P`".
fn obey(config: Config, command: Command, sent: &[u8], flash: &mut [u8], room: &mut [u8]) -> Answer
    requires { length flash.old ≡ flash_size }
    ensures { let b = board config flash.old in
        let told = obeyed b command sent.now in
        Stepped b (in_room config (length room.old) told) result flash.new room.new room.old }
{
    if bad_range(command, sent.len()) {
        return quiet(config, Outcome::Refused(BAD_RECORD));
    }
    if !is_allowed(command, config) {
        return say(config, b"P\r\n", room);
    }
    perform(config, command, sent, flash, room)
}

// A record that was read, with these fields and this data.
fn obey_record(
    config: Config,
    fields: Fields,
    sent: &[u8],
    flash: &mut [u8],
    room: &mut [u8],
) -> Answer
    requires { length flash.old ≡ flash_size }
    ensures { let b = board config flash.old in
        let told = answer_to b (Ok fields) sent.now in
        Stepped b (in_room config (length room.old) told) result flash.new room.new room.old }
{
    match form_of(fields.kind, fields.offset, sent) {
        Some(command) => obey(config, command, sent, flash, room),
        None => quiet(config, Outcome::Refused(BAD_RECORD)),
    }
}

// Takes one record of any characters, on a board of any configuration and flash, with any room for the answer. A numbered refusal
// changes nothing.
pub fn step(config: Config, characters: &[u8], flash: &mut [u8], room: &mut [u8]) -> Answer
    ensures { let b = board config flash.old in
        Stepped b (stepped b characters.now (length room.old))
        result flash.new room.new room.old }
{
    let wrong_size = flash.len() != FLASH_SIZE;
    if wrong_size {
        return quiet(config, Outcome::Refused(WRONG_FLASH));
    }
    let mut held = [0u8; MOST_DATA];
    match read_record(characters, &mut held) {
        Ok(fields) => obey_record(config, fields, &held[..fields.length], flash, room),
        Err(ReadError::WrongChecksum) => say(config, b"X\r\n", room),
        Err(ReadError::BadRecord) => quiet(config, Outcome::Refused(BAD_RECORD)),
        Err(ReadError::TooShort) => quiet(config, Outcome::Refused(TOO_SHORT)),
    }
}
