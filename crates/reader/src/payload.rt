// The judge of a payload: its form, its address, its whole length, and where its parts lie. What the level says of it is asked elsewhere.
ghost use Rattle.std.specs.Prelude.{◌≡◌};
ghost use Rattle.reader.specs.Payload.{fit, layout, judgement};

use crate::form::form_of;
use command::{COMMAND_SIZE, Command, Parts, SUFFIX_SIZE, Transfer};

// What is wrong first with a command against its data.
#[derive(Clone, Copy, Debug, PartialEq, Eq)]
pub enum Misfit {
    BadAddress,
    WrongLength,
}

// A transfer in data of n bytes: 32 bytes of command, X pad bytes, its bytes, 16 suffix bytes, and no other number of them.
fn layout_of(transfer: Option<Transfer>, n: usize) -> Result<Parts, Misfit>
    ensures { result ≡ layout transfer n }
{
    let Some(Transfer { pad, bytes }) = transfer else {
        return Ok(Parts { body: n, suffix: n });
    };
    let body = COMMAND_SIZE + usize::from(pad);
    let suffix = body + (bytes as usize);
    if n != suffix + SUFFIX_SIZE {
        return Err(Misfit::WrongLength);
    }
    Ok(Parts { body, suffix })
}

// How a command fits data of n bytes: its address, then its whole length; where its parts lie, or the first that is wrong.
pub fn fit_of(command: Command, n: usize) -> Result<Parts, Misfit>
    ensures { result ≡ fit command n }
{
    if command::bad_address(command) {
        return Err(Misfit::BadAddress);
    }
    layout_of(command::transfer_of(command), n)
}

// Judges the data of a DNLOAD: the command with how it fits its data; none for data that the table has not.
#[tactic(auto, unfolding(crate::specs::Payload::judgement))]
pub fn judge(sent: &[u8]) -> Option<(Command, Result<Parts, Misfit>)>
    ensures { result ≡ judgement sent.now }
{
    let command = form_of(sent)?;
    Some((command, fit_of(command, sent.len())))
}
