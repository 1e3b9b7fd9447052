// The configuration bytes.
ghost use Rattle.std.specs.Prelude.{◌≡◌};
ghost use Rattle.config.specs.Config.{delivered_config, readable, writable, byte_read, with_byte, with_hsb, erased_config};

// The seven bytes of index 00h to 06h in their order, and HSB.
#[derive(Clone, Copy, Debug, PartialEq, Eq)]
pub struct Config {
    pub bsb: u8,
    pub sbv: u8,
    pub p1cf: u8,
    pub p3cf: u8,
    pub p4cf: u8,
    pub ssb: u8,
    pub eb: u8,
    pub hsb: u8,
}

// The bytes of a board as it is delivered.
pub fn delivered() -> Config
    ensures { result ≡ delivered_config }
{
    Config {
        bsb: 0xFF,
        sbv: 0xFC,
        p1cf: 0xFE,
        p3cf: 0xFF,
        p4cf: 0xFF,
        ssb: 0xFF,
        eb: 0xFF,
        hsb: 0xBB,
    }
}

// Whether an index has a byte that can be written: 00h to 06h.
pub fn is_writable(index: u8) -> bool
    ensures { result ≡ writable index }
{
    index <= 0x06
}

// Whether an index has a byte that can be read: 00h to 06h, or one of the fixed bytes.
pub fn is_readable(index: u8) -> bool
    ensures { result ≡ readable index }
{
    is_writable(index) || matches!(index, 0x30 | 0x31 | 0x60 | 0x61)
}

// The byte of an index: 00h to 06h, or one of the fixed bytes; any other has none.
#[tactic(auto, unfolding(crate::specs::Config::byte_read))]
pub fn read_byte(config: Config, index: u8) -> Option<u8>
    ensures { result ≡ byte_read index config }
{
    match index {
        0x00 => Some(config.bsb),
        0x01 => Some(config.sbv),
        0x02 => Some(config.p1cf),
        0x03 => Some(config.p3cf),
        0x04 => Some(config.p4cf),
        0x05 => Some(config.ssb),
        0x06 => Some(config.eb),
        0x30 => Some(0x58),
        0x31 => Some(0xD7),
        0x60 => Some(0xF7),
        0x61 => Some(0xDF),
        _ => None,
    }
}

// The configuration with another value at an index of 00h to 06h; of any other index, as it was.
pub fn write_byte(config: Config, index: u8, value: u8) -> Config
    ensures { result ≡ with_byte index value config }
{
    let mut next = config;
    match index {
        0x00 => next.bsb = value,
        0x01 => next.sbv = value,
        0x02 => next.p1cf = value,
        0x03 => next.p3cf = value,
        0x04 => next.p4cf = value,
        0x05 => next.ssb = value,
        0x06 => next.eb = value,
        _ => {}
    }
    next
}

// The configuration with the high four bits of HSB from a value; the low four stay.
pub fn write_hsb(config: Config, value: u8) -> Config
    ensures { result ≡ with_hsb value config }
{
    let mut next = config;
    next.hsb = value / 16 * 16 + config.hsb % 16;
    next
}

// The configuration that a full chip erase leaves.
pub fn config_after_erase(config: Config) -> Config
    ensures { result ≡ erased_config config }
{
    let mut next = config;
    next.bsb = 0xFF;
    next.sbv = 0xFC;
    next.ssb = 0xFF;
    next
}
