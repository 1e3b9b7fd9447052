// The functions that a program in another language links: the step, the command reader and writer, the verdict on a job file and its
// count of requests, and those of the serial plug, over numbers and byte slices. c/side_board_loader.h has them for C,
// rust/exports.rs for Rust; the layout of the numbers is crates/numbers' and crates/plugnumbers'.
//
// No public function has a `requires`: each says what it answers for every input.
#![tactic(auto)]

mod records;

ghost use Rattle.std.specs.Prelude.{◌≡◌, length};
ghost use Rattle.config.specs.Config.{delivered_config};
ghost use Rattle.command.specs.Reader.{read_command, reading_status};
ghost use Rattle.writer.specs.Writer.{write_command, room_after, written_number, written_count};
ghost use Rattle.job.specs.Requests.{request_count};
ghost use Rattle.job.specs.Verdict.{verdict, verdict_number, verdict_place};
ghost use Rattle.rules.specs.Session.{idle};
ghost use Rattle.rules.specs.Step.{ask};
ghost use Rattle.numbers.specs.Layout.{pack_session, pack_config, command_of};
ghost use Rattle.exports.specs.Exported.{StepTold, numbered, command_told, body_told, suffix_told};

pub use records::{serial_delivered, serial_read_record, serial_step, serial_write_record};
use sessionnumbers::{number_after, pack_outcome, pack_session, session_of};

// Takes one request. Session, with its busy count apart, and configuration are changed in place; `count` and `pages` get how many bytes
// of the reply are sent and how many pages were stored. The answer is the outcome. Refused, session, busy count and configuration stay
// as they were, bit for bit.
#[unsafe(no_mangle)]
pub extern "C" fn loader_step(
    session: &mut u64,
    busy: &mut u16,
    config: &mut u64,
    setup: &[u8],
    sent: &[u8],
    flash: &mut [u8],
    eeprom: &mut [u8],
    reply: &mut [u8],
    count: &mut usize,
    pages: &mut usize,
) -> u64
    ensures { let b = numbered session.old busy.old config.old flash.old eeprom.old in
        let a = ask b setup.now sent.now (length reply.old) in
        StepTold b a session.old config.old reply.old
        result session.new busy.new config.new count.new pages.new
        flash.new eeprom.new reply.new }
{
    let answer = loader::step(
        session_of(*session, *busy),
        numbers::config_of(*config),
        setup,
        sent,
        flash,
        eeprom,
        reply,
    );
    let outcome = answer.outcome;
    *busy = answer.session.busy;
    *session = number_after(outcome, *session, pack_session(answer.session));
    *config = number_after(outcome, *config, numbers::pack_config(answer.config));
    *count = answer.length;
    *pages = answer.pages;
    pack_outcome(outcome)
}

// The session after power-up; `busy` gets its busy count.
#[unsafe(no_mangle)]
pub extern "C" fn loader_power_up(busy: &mut u16) -> u64
    ensures { (result ≡ pack_session idle) × (busy.new ≡ idle.busy) }
{
    let session = requests::power_up();
    *busy = session.busy;
    pack_session(session)
}

// The configuration of a board as it is delivered.
#[unsafe(no_mangle)]
pub extern "C" fn loader_delivered() -> u64
    ensures { result ≡ pack_config delivered_config }
{
    numbers::pack_config(config::delivered())
}

// Reads the data of a DNLOAD: 0 with the command and the places of its body and suffix, or 0Fh for a stall, or 08h.
#[unsafe(no_mangle)]
pub extern "C" fn loader_read_command(
    sent: &[u8],
    command: &mut u64,
    body: &mut usize,
    suffix: &mut usize,
) -> u8
    ensures value { result ≡ reading_status (read_command sent.now) }
    ensures command_after { command.new ≡ command_told (read_command sent.now) command.old }
    ensures body_after { body.new ≡ body_told (read_command sent.now) body.old }
    ensures suffix_after { suffix.new ≡ suffix_told (read_command sent.now) suffix.old }
{
    let reading = reader::read_command(sent);
    if let Ok((read, parts)) = reading {
        *command = commandnumbers::pack_command(read);
        *body = parts.body;
        *suffix = parts.suffix;
    }
    reader::reading_status(reading)
}

// Writes a command into the room: 0, or the number of the refusal. `count` gets how many bytes were written.
#[unsafe(no_mangle)]
pub extern "C" fn loader_write_command(
    command: u64,
    body: &[u8],
    suffix: &[u8],
    room: &mut [u8],
    count: &mut usize,
) -> u8
    ensures fact { let written = write_command (command_of command) body.now suffix.now room.old in
        (result ≡ written_number written) × (count.new ≡ written_count written) }
    ensures room_after { room.new ≡ room_after (command_of command) body.now suffix.now room.old }
{
    let written = writer::write_command(commandnumbers::command_of(command), body, suffix, room);
    *count = writer::written_count(written);
    writer::written_number(written)
}

// The verdict on a job file: 0, or the number of its refusal. `at` gets the offset of the bad field's tag.
#[unsafe(no_mangle)]
pub extern "C" fn loader_check_job(file: &[u8], at: &mut usize) -> u8
    ensures value { result ≡ verdict_number (verdict file.now) }
    ensures at_after { at.new ≡ verdict_place (verdict file.now) }
{
    match job::check_job(file) {
        Ok(()) => {
            *at = 0;
            0
        }
        Err(refusal) => {
            *at = refusal.at;
            refusal.cause.number()
        }
    }
}

// How many requests a job holds.
#[unsafe(no_mangle)]
pub extern "C" fn loader_count_requests(file: &[u8]) -> usize
    ensures { result ≡ request_count file.now }
{
    job::count_requests(file)
}
