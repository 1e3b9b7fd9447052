// The functions of the serial plug.
ghost use Rattle.std.specs.Prelude.{◌≡◌, length};
ghost use Rattle.record.specs.Reader.{read_record, reading_number, room_read};
ghost use Rattle.record.specs.Writer.{write_record, written_number, written_count, room_written};
ghost use Rattle.plug.specs.Config.{delivered_config};
ghost use Rattle.plug.specs.Step.{step};
ghost use Rattle.plugnumbers.specs.Layout.{pack_config};
ghost use Rattle.exports.specs.Records.{RecordTold, numbered_plug, offset_told, kind_told, count_told};

// Takes one record. The configuration is changed in place; `count` and `pages` get how many characters of the answer stand in the room
// and how many pages were stored. The answer is the outcome.
#[unsafe(no_mangle)]
pub extern "C" fn serial_step(
    config: &mut u32,
    characters: &[u8],
    flash: &mut [u8],
    room: &mut [u8],
    count: &mut usize,
    pages: &mut usize,
) -> u64
    ensures { let b = numbered_plug config.old flash.old in
        let a = step b characters.now (length room.old) in
        RecordTold b a room.old result config.new count.new pages.new
        flash.new room.new }
{
    let answer = serial::step(plugnumbers::config_of(*config), characters, flash, room);
    let outcome = answer.outcome;
    *config = plugnumbers::pack_config(answer.config);
    *count = answer.length;
    *pages = answer.pages;
    plugnumbers::pack_outcome(outcome)
}

// The configuration of a board as it is delivered.
#[unsafe(no_mangle)]
pub extern "C" fn serial_delivered() -> u32
    ensures { result ≡ pack_config delivered_config }
{
    plugnumbers::pack_config(plugtables::delivered())
}

// Reads the characters of a record: 0 with the load offset, the type and how many bytes of data stand in the room; 1 for a wrong
// checksum, or the number of the refusal.
#[unsafe(no_mangle)]
pub extern "C" fn serial_read_record(
    characters: &[u8],
    room: &mut [u8],
    offset: &mut u16,
    kind: &mut u8,
    count: &mut usize,
) -> u8
    ensures value { result ≡ reading_number (read_record characters.now room.old) }
    ensures room_after { room.new ≡ room_read characters.now room.old }
    ensures offset_after { offset.new ≡ offset_told (read_record characters.now room.old) offset.old }
    ensures kind_after { kind.new ≡ kind_told (read_record characters.now room.old) kind.old }
    ensures count_after { count.new ≡ count_told (read_record characters.now room.old) count.old }
{
    match recordreader::read_record(characters, room) {
        Ok(fields) => {
            *offset = fields.offset;
            *kind = fields.kind;
            *count = fields.length;
            0
        }
        Err(error) => error.number(),
    }
}

// Writes a record into the room: 0, or the number of the refusal. `count` gets how many characters were written.
#[unsafe(no_mangle)]
pub extern "C" fn serial_write_record(
    offset: u16,
    kind: u8,
    sent: &[u8],
    room: &mut [u8],
    count: &mut usize,
) -> u8
    ensures value { result ≡ written_number (write_record offset kind sent.now room.old) }
    ensures count_after { count.new ≡ written_count (write_record offset kind sent.now room.old) }
    ensures room_after { room.new ≡ room_written offset kind sent.now room.old }
{
    match recordwriter::write_record(offset, kind, sent, room) {
        Ok(size) => {
            *count = size;
            0
        }
        Err(error) => {
            *count = 0;
            error.number()
        }
    }
}
