// P1 of 02: a board that came back with SSB 00h is at level 2.
ghost use Rattle.std.specs.Prelude.{◌≡◌};
ghost use Rattle.worked.specs.OddBoard.{odd_config, Asked};

use config::Config;
use memory::{EEPROM_SIZE, FLASH_SIZE, FlashAddress, Range};
use rules::{Answer, Pending, Session};

const IDLE: Session = Session {
    state: 2,
    status: 0x00,
    pending: Pending::Nothing,
    busy: 0,
};

const PENDING_READ: Session = Session {
    state: 5,
    pending: Pending::MemoryRead(Range::Flash(FlashAddress(0x0000), FlashAddress(0x0000))),
    ..IDLE
};

fn odd() -> Config
    ensures { result ≡ odd_config }
{
    config::write_byte(config::delivered(), 0x05, 0x00)
}

// What the odd board answers; its flash holds 55h.
fn asked(session: Session, setup: &[u8], sent: &[u8]) -> Answer
    ensures { Asked session setup.now sent.now result }
{
    let mut flash = [0x55; FLASH_SIZE];
    let mut eeprom = [0xFF; EEPROM_SIZE];
    let mut reply = [0x00; 1024];
    loader::step(
        session,
        odd(),
        setup,
        sent,
        &mut flash,
        &mut eeprom,
        &mut reply,
    )
}

// SSB is read as it is stored.
#[tactic(auto, unfolding(config::specs::Config::byte_read))]
fn read_ssb() {
    check::expect(config::read_byte(odd(), 0x05) == Some(0x00));
}

// A write of FCh to SSB gets 03h, and UPLOAD of a byte of flash that is pending stalls.
fn requests() {
    let download = [0x21, 1, 0, 0, 0, 0, 4, 0];
    let refused = asked(IDLE, &download, &[0x04, 0x01, 0x05, 0xFC]);
    check::expect(refused.session.status == 0x03);
    let upload = [0xA1, 2, 0, 0, 0, 0, 1, 0];
    let stalled = asked(PENDING_READ, &upload, &[]);
    check::expect(stalled.session.status == 0x0F);
}

pub fn odd_board() {
    read_ssb();
    requests();
}
