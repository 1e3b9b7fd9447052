// What an accepted command does.
ghost use Rattle.std.specs.Prelude.{◌≡◌, true, ◌≤◌, ◌-◌, length, take, drop};
ghost use Rattle.memory.specs.Memory.{flash_pages};
ghost use Rattle.config.specs.Config.{readable, config_byte};
ghost use Rattle.command.specs.Reader.{parts_of};
ghost use Rattle.rules.specs.Session.{idle};
ghost use Rattle.blank.specs.Blank.{used_in};
ghost use Rattle.rules.specs.Result.{board as board_of, answer};
ghost use Rattle.rules.specs.Commands.{perform as perform_of, accept, blank_effect};
ghost use Rattle.rules.specs.Answered.{Answered, Acceptable, accepted_answer};

use command::{Command, Parts};
use config::Config;
use memory::FlashAddress;
use rules::{Answer, Outcome, Pending, Session, StartKind};

// "bootloader version 12h (our choice)".
const VERSION: u8 = 0x12;

// State 3, a status and what is pending; the pages that were stored are the busy count.
fn accepted(config: Config, status: u8, pending: Pending, pages: u16) -> Answer
    ensures { result ≡ accepted_answer config status pending pages }
{
    Answer {
        outcome: Outcome::Done,
        session: Session {
            state: 3,
            status,
            pending,
            busy: pages,
        },
        config,
        length: 0,
        pages: usize::from(pages),
    }
}

// Status 00h and something pending, or nothing; no page is stored.
fn leaves(config: Config, pending: Pending) -> Answer
    ensures { result ≡ accepted_answer config 0x00 pending 0 }
{
    accepted(config, 0x00, pending, 0)
}

// Status 00h, nothing pending, and the pages that were stored.
fn stores(config: Config, pages: usize) -> Answer
    requires { pages ≤ flash_pages }
    ensures { result ≡ accepted_answer config 0x00 Pending.Nothing pages }
{
    accepted(config, 0x00, Pending::Nothing, pages as u16)
}

// The byte of an index that can be read.
#[tactic(auto, unfolding(config::specs::Config::byte_read))]
fn byte_of(config: Config, index: u8) -> u8
    requires { readable index ≡ true }
    ensures { result ≡ config_byte index config }
{
    config::read_byte(config, index).unwrap()
}

// The bytes of a program transfer, of either memory: those between two places of the data.
fn body(parts: Parts, sent: &[u8]) -> &[u8]
    requires body_le_suffix { parts.body ≤ parts.suffix }
    requires suffix_in_bounds { parts.suffix ≤ length sent.now }
    ensures { result.now ≡ take (parts.suffix - parts.body) (drop parts.body sent.now) }
{
    &sent[parts.body..parts.suffix]
}

// The first byte that is not FFh is reported with 05h.
fn blank_check(config: Config, start: FlashAddress, end: FlashAddress, flash: &[u8]) -> Answer
    ensures { let found = used_in start.0 end.0 flash.now in
        result ≡ answer (accept (Command.BlankCheck start end) (blank_effect config found)) }
{
    match blank::first_used(flash, start, end) {
        Some(address) => accepted(config, 0x05, Pending::BlankReport(address), 0),
        None => accepted(config, 0x00, Pending::Nothing, 0),
    }
}

// Does what an accepted command says.
#[tactic(auto, unfolding(rules::specs::Commands::perform))]
pub(crate) fn perform(
    config: Config,
    command: Command,
    parts: Parts,
    sent: &[u8],
    flash: &mut [u8],
    eeprom: &mut [u8],
) -> Answer
    requires acceptable { Acceptable command sent.now flash.old eeprom.old }
    requires parts_value { parts ≡ parts_of command sent.now }
    ensures { let b = board_of idle config flash.old eeprom.old in
        Answered b (accept command (perform_of b command sent.now)) result flash.new eeprom.new }
{
    match command {
        Command::ProgramFlash(start, end) => {
            let bytes = body(parts, sent);
            stores(config, memory::program_flash(start, end, bytes, flash))
        }
        Command::ProgramEeprom(start, end) => {
            let bytes = body(parts, sent);
            // Its answer is not asked for: a transfer that came here can be programmed.
            memory::program_eeprom(start, end, bytes, eeprom);
            leaves(config, Pending::Nothing)
        }
        Command::Read(range) => leaves(config, Pending::MemoryRead(range)),
        Command::BlankCheck(start, end) => blank_check(config, start, end, flash),
        Command::EraseBlock(block) => stores(config, memory::erase_block(flash, block)),
        Command::EraseChip => {
            let pages = memory::erase_chip(flash);
            stores(config::config_after_erase(config), pages)
        }
        Command::WriteByte(index, value) => leaves(
            config::write_byte(config, index, value),
            Pending::Nothing,
        ),
        Command::WriteHsb(value) => leaves(config::write_hsb(config, value), Pending::Nothing),
        Command::StartReset => leaves(
            config,
            Pending::Start(StartKind::Reset, FlashAddress(0x0000)),
        ),
        Command::StartAt(address) => leaves(config, Pending::Start(StartKind::AtAddress, address)),
        Command::ReadVersion => leaves(config, Pending::OneByte(VERSION)),
        Command::ReadByte(index) => leaves(config, Pending::OneByte(byte_of(config, index))),
        Command::ReadHsb => leaves(config, Pending::OneByte(config.hsb)),
    }
}
