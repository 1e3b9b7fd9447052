// Pairs of digits, read as bytes.
ghost use Rattle.std.specs.Prelude.{◌≡◌, suc, ◌*◌, ◌≤◌, length};
ghost use Rattle.record.specs.Digits.{characters as character_codes, digit_value, tabled};
ghost use Rattle.record.specs.Reader.{Held, digit_read, pairs_read};

use digits::{NO_DIGIT, digit_table};

// What the table says of a character.
fn digit_of(values: &[u8; 256], character: u8) -> Option<u8>
    requires { values.now ≡ tabled digit_value 0 character_codes }
    ensures { result ≡ digit_read character }
{
    let value = values[usize::from(character)];
    if value == NO_DIGIT { None } else { Some(value) }
}

// Puts the byte of each pair of characters after the mark into the front of a memory, up to a character that is no digit, and answers what
// the bytes come to.
pub(crate) fn read_pairs(characters: &[u8], count: usize, held: &mut [u8]) -> Option<u8>
    requires { (length characters.now ≡ suc (2 * count)) × (count ≤ length held.old) }
    ensures value { result ≡ pairs_read characters.now }
    ensures held { Held characters.now held.old held.new }
{
    let values = digit_table();
    let mut total: u8 = 0;
    // Cut off by the count: up to the end of the characters, whose number would be held too, it takes 16 bytes more of stack.
    let (pairs, _) = characters[1..1 + 2 * count].as_chunks::<2>();
    for (i, &[high, low]) in pairs.iter().enumerate() {
        let byte = digit_of(&values, high)? * 16 + digit_of(&values, low)?;
        // Stays: by its index, as a proof knows no element that was stored through an `iter_mut` in a zip.
        held[i] = byte;
        total = total.wrapping_add(byte);
    }
    Some(total)
}
