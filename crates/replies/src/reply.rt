// Answers: one without characters, and one whose characters are put at the front of the room, or 9 where they don't fit.
ghost use Rattle.std.specs.Prelude.{◌≡◌, length, Some};
ghost use Rattle.words.specs.Words.{laid};
ghost use Rattle.plug.specs.Answers.{done_text, value_text, blank_text};
ghost use Rattle.plug.specs.Step.{told, in_room};
ghost use Rattle.plug.specs.Answered.{Replied};
ghost use Rattle.replies.specs.Replies.{quiet_answer, told_answer, done_in};

use lines::{TOO_SHORT, hex_text};
use memory::FlashAddress;
use plug::{Answer, Config, Outcome};

// `.` CR LF.
pub const DONE_SIZE: usize = 3;

// An answer without characters, which stores nothing: a numbered refusal or a start.
pub fn quiet(config: Config, outcome: Outcome) -> Answer
    ensures { result ≡ quiet_answer config outcome }
{
    Answer {
        outcome,
        config,
        length: 0,
        pages: 0,
    }
}

// 9: the answer doesn't fit the room.
pub fn no_room(config: Config) -> Answer
    ensures { result ≡ quiet_answer config (Outcome.Refused 9) }
{
    // "9 in place of whichever answer doesn't fit"
    quiet(config, Outcome::Refused(TOO_SHORT))
}

// An answer of so many characters, which stand in the room.
pub(crate) fn answered(config: Config, length: usize, pages: usize) -> Answer
    ensures { result ≡ told_answer config length pages }
{
    Answer {
        outcome: Outcome::Answered,
        config,
        length,
        pages,
    }
}

// Says a text; nothing is stored.
pub fn say(config: Config, text: &[u8], room: &mut [u8]) -> Answer
    ensures { let said = told config text.now in
        Replied (in_room config (length room.old) said) result room.new room.old }
{
    if !words::lay(room, 0, text) {
        return no_room(config);
    }
    answered(config, text.len(), 0)
}

// Says that so many pages were stored, with the configuration after it.
pub fn done(config: Config, pages: usize, room: &mut [u8]) -> Answer
    ensures value { result ≡ done_in room.old config pages }
    ensures room_after { room.new ≡ laid 0 done_text room.old }
{
    if !words::lay(room, 0, b".\r\n") {
        return no_room(config);
    }
    answered(config, DONE_SIZE, pages)
}

// "value" & "." & "CR" & "LF".
pub fn say_value(config: Config, value: u8, room: &mut [u8]) -> Answer
    ensures { let said = told config (value_text value) in
        Replied (in_room config (length room.old) said) result room.new room.old }
{
    let mut text = [0u8; 5];
    let end = hex_text(&[value], &mut text, 0).unwrap();
    words::lay(&mut text, end, b".\r\n");
    say(config, &text, room)
}

// "First Address wrong" "CR" & "LF".
pub fn say_address(config: Config, address: FlashAddress, room: &mut [u8]) -> Answer
    ensures { let said = told config (blank_text (Some address.0)) in
        Replied (in_room config (length room.old) said) result room.new room.old }
{
    let mut text = [0u8; 6];
    let end = hex_text(&address.0.to_be_bytes(), &mut text, 0).unwrap();
    words::lay(&mut text, end, b"\r\n");
    say(config, &text, room)
}
