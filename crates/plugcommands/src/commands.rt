// What a command does: its answer, the pages that it stores and the configuration after it. The room is looked at before anything is
// stored.
ghost use Rattle.std.specs.Prelude.{◌≡◌, [], length};
ghost use Rattle.blank.specs.Blank.{used_in};
ghost use Rattle.plug.specs.Answers.{blank_text};
ghost use Rattle.plug.specs.Commands.{block_page as first_page_of, block_pages as page_count_of};
ghost use Rattle.plug.specs.Step.{board, told, in_room, perform as done_by};
ghost use Rattle.plug.specs.Answered.{Replied, Stepped};
ghost use Rattle.plugcommands.specs.Performed.{performed};

use memory::{FlashAddress, Page};
use plug::{Answer, Block, Command, Config, Outcome, Setting};
use plugtables::{byte_value, config_after_erase, with_setting};
use replies::{DONE_SIZE, done, no_room, quiet, say, say_address, say_display, say_value};

// "block0 (From 0000h to 1FFFh)" to "block3 (From 8000h to FFFFh)", and all of them.
const FLASH_PAGES: usize = 512;

// The first page of a block, and how many it has.
fn block_pages(block: Block) -> (Page, usize)
    ensures first { result.0 ≡ first_page_of block }
    ensures count { result.1 ≡ page_count_of block }
{
    match block {
        Block::Block0 => (Page(0), 64),
        Block::Block1 => (Page(64), 64),
        Block::Block2 => (Page(128), 128),
        Block::Block3 => (Page(256), 256),
    }
}

fn program(
    config: Config,
    start: FlashAddress,
    sent: &[u8],
    flash: &mut [u8],
    room: &mut [u8],
) -> Answer
    ensures { let b = board config flash.old in
        let done = done_by b (Command.Program start) sent.now in
        Stepped b (in_room config (length room.old) done) result flash.new room.new room.old }
{
    if room.len() < DONE_SIZE {
        return no_room(config);
    }
    let pages = memory::store_bytes(flash, start, sent);
    done(config, pages, room)
}

fn erase_block(config: Config, block: Block, flash: &mut [u8], room: &mut [u8]) -> Answer
    ensures { let b = board config flash.old in
        let done = done_by b (Command.EraseBlock block) [] in
        Stepped b (in_room config (length room.old) done) result flash.new room.new room.old }
{
    if room.len() < DONE_SIZE {
        return no_room(config);
    }
    let (first, count) = block_pages(block);
    let pages = memory::erase_from(flash, first, count);
    done(config, pages, room)
}

fn erase_chip(config: Config, flash: &mut [u8], room: &mut [u8]) -> Answer
    ensures { let b = board config flash.old in
        let done = done_by b Command.EraseChip [] in
        Stepped b (in_room config (length room.old) done) result flash.new room.new room.old }
{
    if room.len() < DONE_SIZE {
        return no_room(config);
    }
    let pages = memory::erase_from(flash, Page(0), FLASH_PAGES);
    done(config_after_erase(config), pages, room)
}

fn write(config: Config, setting: Setting, room: &mut [u8]) -> Answer
    ensures { let done = done_by (board config []) (Command.Write setting) [] in
        Replied (in_room config (length room.old) done) result room.new room.old }
{
    if room.len() < DONE_SIZE {
        return no_room(config);
    }
    done(with_setting(config, setting), 0, room)
}

fn blank_check(
    config: Config,
    start: FlashAddress,
    end: FlashAddress,
    flash: &[u8],
    room: &mut [u8],
) -> Answer
    ensures { let said = told config (blank_text (used_in start.0 end.0 flash.now)) in
        Replied (in_room config (length room.old) said) result room.new room.old }
{
    match blank::first_used(flash, start, end) {
        Some(address) => say_address(config, address, room),
        None => say(config, b".\r\n", room),
    }
}

// Does a command, whatever the level; a display of another flash or of a backward range is refused.
pub fn perform(
    config: Config,
    command: Command,
    sent: &[u8],
    flash: &mut [u8],
    room: &mut [u8],
) -> Answer
    ensures { let b = board config flash.old in
        let done = performed b command sent.now in
        Stepped b (in_room config (length room.old) done) result flash.new room.new room.old }
{
    match command {
        Command::Program(start) => program(config, start, sent, flash, room),
        Command::Display(start, end) => say_display(config, start, end, flash, room),
        Command::BlankCheck(start, end) => blank_check(config, start, end, flash, room),
        Command::EraseBlock(block) => erase_block(config, block, flash, room),
        Command::EraseChip => erase_chip(config, flash, room),
        Command::Write(setting) => write(config, setting, room),
        Command::Read(byte) => say_value(config, byte_value(config, byte), room),
        Command::StartReset => quiet(config, Outcome::StartedReset),
        Command::StartAt(address) => quiet(config, Outcome::StartedAt(address)),
    }
}
