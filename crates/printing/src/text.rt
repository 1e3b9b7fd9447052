// Pieces of text, put into a room one after another. Each writer asks that its piece fits, and answers the place after it.
ghost use Rattle.std.specs.Prelude.{◌≡◌, [], ◌∷◌, ◌++◌, ◌+◌, ◌≤◌, ◌<◌, length};
ghost use Rattle.lines.specs.Text.{most_digits, decimal};
ghost use Rattle.lines.specs.Room.{Stands};

// How many digits a number has.
pub(crate) fn digits(number: usize) -> usize
    ensures value { result ≡ length (decimal number) }
    ensures upper_bound { result ≤ most_digits }
{
    number.max(1).ilog10() as usize + 1
}

// Puts one byte.
pub(crate) fn put_byte(room: &mut [u8], at: usize, byte: u8) -> usize
    requires { at < length room.old }
    ensures { Stands at (byte ∷ []) room.old result room.new }
{
    room[at] = byte;
    at + 1
}

// Puts the bytes of a text.
pub(crate) fn put_text(room: &mut [u8], at: usize, text: &[u8]) -> usize
    requires { at + length text.now ≤ length room.old }
    ensures { Stands at text.now room.old result room.new }
{
    words::lay(room, at, text);
    at + text.len()
}

// Puts the digits of a number: those before the last, then the last.
fn put_digits(room: &mut [u8], at: usize, number: usize) -> usize
    requires { at + length (decimal number) ≤ length room.old }
    ensures { Stands at (decimal number) room.old result room.new }
{
    if number < 10 {
        return put_byte(room, at, b'0' + number as u8);
    }
    let last = put_digits(room, at, number / 10);
    put_byte(room, last, b'0' + (number % 10) as u8)
}

// Puts a number in decimal, and a byte after it.
pub(crate) fn put_number(room: &mut [u8], at: usize, number: usize, after: u8) -> usize
    requires { at + length (decimal number) < length room.old }
    ensures stands { Stands at (decimal number ++ after ∷ []) room.old result room.new }
    ensures value { result ≡ at + length (decimal number) + 1 }
{
    let end = put_digits(room, at, number);
    put_byte(room, end, after)
}
