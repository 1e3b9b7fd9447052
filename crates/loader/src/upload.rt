// UPLOAD: what is pending goes out, as far as wLength goes.
ghost use Rattle.std.specs.Prelude.{◌≡◌, false, ◌≤◌, ◌<◌, length};
ghost use Rattle.memory.specs.Read.{read_count, read_buffer};
ghost use Rattle.rules.specs.Session.{idle_with};
ghost use Rattle.rules.specs.Result.{board as board_of};
ghost use Rattle.rules.specs.Requests.{rest_of, read_sent, send as send_of, upload as upload_of};
ghost use Rattle.rules.specs.Refusals.{bad_pending, reply_size};
ghost use Rattle.rules.specs.Answered.{bare, Replied, first_of, Splits, Room, Sendable, send_pending, sent_answer};

use config::{Config, Level};
use memory::{EepromAddress, FlashAddress, Range};
use requests::{quiet, stall};
use rules::{Answer, Outcome, Pending, Session};

// Status 00h, a state, what is still pending, the busy count as it was, and how many bytes are sent.
fn sent(config: Config, state: u8, pending: Pending, busy: u16, count: usize) -> Answer
    ensures { result ≡ sent_answer config state pending busy count }
{
    let session = Session {
        state,
        status: 0x00,
        pending,
        busy,
    };
    Answer {
        length: count,
        ..quiet(config, Outcome::Done, session)
    }
}

// The first n bytes of a range, and the rest of it.
fn split(range: Range, n: u16) -> (Range, Range)
    requires { Splits n range }
    ensures first { result.0 ≡ first_of n range }
    ensures rest { result.1 ≡ rest_of n range }
{
    match range {
        Range::Flash(start, end) => (
            Range::Flash(start, FlashAddress(start.0 + (n - 1))),
            Range::Flash(FlashAddress(start.0 + n), end),
        ),
        Range::Eeprom(start, end) => (
            Range::Eeprom(start, EepromAddress(start.0 + (n - 1))),
            Range::Eeprom(EepromAddress(start.0 + n), end),
        ),
    }
}

// Reads a range to the front of the reply, and gives how many bytes those are: of flash by flash's operation, of EEPROM by its own.
fn read_range(range: Range, flash: &[u8], eeprom: &[u8], reply: &mut [u8]) -> usize
    ensures value { result ≡ read_count range flash.now eeprom.now reply.old }
    ensures reply_after { reply.new ≡ read_buffer range flash.now eeprom.now reply.old }
{
    match range {
        Range::Flash(start, end) => memory::read_flash(start, end, flash, reply),
        Range::Eeprom(start, end) => memory::read_eeprom(start, end, eeprom, reply),
    }
}

// A memory read: its first bytes where more remains, else all of it.
fn send_read(
    busy: u16,
    config: Config,
    range: Range,
    n: u16,
    flash: &[u8],
    eeprom: &[u8],
    reply: &mut [u8],
) -> Answer
    requires { Sendable n (Pending.MemoryRead range) flash.now eeprom.now reply.old }
    ensures { let b = board_of (idle_with busy) config flash.now eeprom.now in
        Replied (send_of b n (Pending.MemoryRead range)) result reply.new reply.old }
{
    let all = command::range_count(range);
    if usize::from(n) < all {
        let (first, rest) = split(range, n);
        let count = read_range(first, flash, eeprom, reply);
        return sent(config, 9, Pending::MemoryRead(rest), busy, count);
    }
    let count = read_range(range, flash, eeprom, reply);
    sent(config, 2, Pending::Nothing, busy, count)
}

// The two bytes of a blank report, high byte first; after the first alone its low byte is pending.
fn send_report(busy: u16, config: Config, address: FlashAddress, n: u16, reply: &mut [u8]) -> Answer
    requires n_nonzero { 0 < n }
    requires reply_size_in_bounds { reply_size ≤ length reply.old }
    ensures { let sending = send_of (bare (idle_with busy) config) n (Pending.BlankReport address) in
        Replied sending result reply.new reply.old }
{
    let [high, low] = address.0.to_be_bytes();
    if n == 1 {
        words::lay(reply, 0, &[high]);
        return sent(config, 9, Pending::OneByte(low), busy, 1);
    }
    words::lay(reply, 0, &[high, low]);
    sent(config, 2, Pending::Nothing, busy, 2)
}

fn send_byte(busy: u16, config: Config, value: u8, n: u16, reply: &mut [u8]) -> Answer
    requires n_nonzero { 0 < n }
    requires reply_size_in_bounds { reply_size ≤ length reply.old }
    ensures { let sending = send_of (bare (idle_with busy) config) n (Pending.OneByte value) in
        Replied sending result reply.new reply.old }
{
    words::lay(reply, 0, &[value]);
    sent(config, 2, Pending::Nothing, busy, 1)
}

// Whether a level lets a memory read be sent.
fn read_sent(level: Level) -> bool
    ensures { result ≡ read_sent level }
{
    matches!(level, Level::L0 | Level::L1)
}

// In state 5 or 9, with wLength over 0.
fn send(
    session: Session,
    config: Config,
    n: u16,
    flash: &[u8],
    eeprom: &[u8],
    reply: &mut [u8],
) -> Answer
    requires { Sendable n session.pending flash.now eeprom.now reply.old }
    ensures { let b = board_of session config flash.now eeprom.now in
        Replied (send_pending b n) result reply.new reply.old }
{
    let busy = session.busy;
    match session.pending {
        Pending::MemoryRead(range) => {
            if read_sent(config::level_of(config)) {
                send_read(busy, config, range, n, flash, eeprom, reply)
            } else {
                stall(session, config)
            }
        }
        Pending::BlankReport(address) => send_report(busy, config, address, n, reply),
        Pending::OneByte(value) => send_byte(busy, config, value, n, reply),
        Pending::Nothing | Pending::Start(_, _) => stall(session, config),
    }
}

// UPLOAD with wLength n.
pub(crate) fn upload(
    session: Session,
    config: Config,
    n: u16,
    flash: &[u8],
    eeprom: &[u8],
    reply: &mut [u8],
) -> Answer
    requires room { Room flash.now eeprom.now reply.old }
    requires pending_value { bad_pending session.pending ≡ false }
    ensures { let b = board_of session config flash.now eeprom.now in
        Replied (upload_of b n) result reply.new reply.old }
{
    if n == 0 {
        return stall(session, config);
    }
    match session.state {
        5 | 9 => send(session, config, n, flash, eeprom, reply),
        _ => stall(session, config),
    }
}
