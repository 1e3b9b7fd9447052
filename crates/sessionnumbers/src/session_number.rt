// A session as a number.
ghost use Rattle.std.specs.Prelude.{◌≡◌};
ghost use Rattle.numbers.specs.Layout.{pack_read, pack_start, pack_pending, pack_session, pending_of, session_of};

use memory::{EepromAddress, FlashAddress, Range};
use numbers::{low_byte, pack_words, words_of};
use rules::{Pending, Session, StartKind};

fn pack_read(head: u16, range: Range) -> u64
    ensures { result ≡ pack_read head range }
{
    match range {
        Range::Flash(start, end) => pack_words(head, 1, start.0, end.0),
        Range::Eeprom(start, end) => pack_words(head, 2, start.0, end.0),
    }
}

fn pack_start(head: u16, kind: StartKind, address: FlashAddress) -> u64
    ensures { result ≡ pack_start head kind address }
{
    match kind {
        StartKind::Reset => pack_words(head, 5, address.0, 0),
        StartKind::AtAddress => pack_words(head, 6, address.0, 0),
    }
}

fn pack_pending(head: u16, pending: Pending) -> u64
    ensures { result ≡ pack_pending head pending }
{
    match pending {
        Pending::Nothing => pack_words(head, 0, 0, 0),
        Pending::MemoryRead(range) => pack_read(head, range),
        Pending::BlankReport(address) => pack_words(head, 3, address.0, 0),
        Pending::OneByte(value) => pack_words(head, 4, u16::from(value), 0),
        Pending::Start(kind, address) => pack_start(head, kind, address),
    }
}

// The number of a session, but for its busy count, which is a number of its own: the 64 bits have no room for it.
pub fn pack_session(session: Session) -> u64
    ensures { result ≡ pack_session session }
{
    let head = u16::from_le_bytes([session.state, session.status]);
    pack_pending(head, session.pending)
}

#[tactic(auto, unfolding(numbers::specs::Layout::pending_of))]
fn pending_of(kind: u16, first: u16, last: u16) -> Pending
    ensures { result ≡ pending_of kind first last }
{
    match kind {
        1 => Pending::MemoryRead(Range::Flash(FlashAddress(first), FlashAddress(last))),
        2 => Pending::MemoryRead(Range::Eeprom(EepromAddress(first), EepromAddress(last))),
        3 => Pending::BlankReport(FlashAddress(first)),
        4 => Pending::OneByte(low_byte(first)),
        5 => Pending::Start(StartKind::Reset, FlashAddress(first)),
        6 => Pending::Start(StartKind::AtAddress, FlashAddress(first)),
        _ => Pending::Nothing,
    }
}

// The session that a number and a busy count stand for: any other kind of what is pending counts as nothing, and unused bits are not
// looked at. The count is taken as it is.
pub fn session_of(n: u64, busy: u16) -> Session
    ensures { result ≡ session_of n busy }
{
    let [head, kind, first, last] = words_of(n);
    let [state, status] = head.to_le_bytes();
    Session {
        state,
        status,
        pending: pending_of(kind, first, last),
        busy,
    }
}
