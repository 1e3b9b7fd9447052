// GETSTATUS: the six bytes of its report, and the session after it.
ghost use Rattle.std.specs.Prelude.{◌≡◌};
ghost use Rattle.rules.specs.Requests.{reports_busy, settled as settled_from, entered as entered_from, timeout as timeout_of, busy_after_status};
ghost use Rattle.reports.specs.Report.{status_report};

use rules::Session;

// The bytes that are sent, and the session after them.
#[derive(Clone, Copy, Debug, PartialEq, Eq)]
pub struct Report {
    pub bytes: [u8; 6],
    pub session: Session,
}

// P5 of 02: "ten milliseconds a page".
const PAGE_TIME: u32 = 10;

// Whether the next GETSTATUS reports state 4: pages have to be waited for, and none has asked yet.
fn reports_busy(session: Session) -> bool
    ensures { result ≡ reports_busy session }
{
    session.state == 3 && 0 < session.busy
}

// The state that GETSTATUS enters where no page has to be waited for.
fn settled(state: u8) -> u8
    ensures { result ≡ settled_from state }
{
    match state {
        3 | 4 => 5,
        6 => 2,
        _ => state,
    }
}

// The state that GETSTATUS enters.
fn entered(session: Session) -> u8
    ensures { result ≡ entered_from session }
{
    if reports_busy(session) {
        4
    } else {
        settled(session.state)
    }
}

// The milliseconds that a host has to wait.
fn timeout(session: Session) -> u32
    ensures { result ≡ timeout_of session }
{
    if reports_busy(session) {
        PAGE_TIME * u32::from(session.busy)
    } else {
        0
    }
}

// The busy count after GETSTATUS: the one in state 4 clears it.
fn busy_after(session: Session) -> u16
    ensures { result ≡ busy_after_status session }
{
    if session.state == 4 { 0 } else { session.busy }
}

// Status, the three bytes of the timeout, low byte first, the state entered, zero.
pub fn status_report(session: Session) -> Report
    ensures { result ≡ status_report session }
{
    let state = entered(session);
    let [low, middle, high, _] = timeout(session).to_le_bytes();
    Report {
        bytes: [session.status, low, middle, high, state, 0],
        session: Session {
            state,
            busy: busy_after(session),
            ..session
        },
    }
}
