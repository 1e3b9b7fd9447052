// The commands.
ghost use Rattle.std.specs.Prelude.{◌≡◌, ◌≤◌};
ghost use Rattle.plug.specs.Config.{bit_value};

use memory::FlashAddress;

// The four blocks of flash.
#[derive(Clone, Copy, Debug, PartialEq, Eq)]
pub enum Block {
    Block0,
    Block1,
    Block2,
    Block3,
}

// A fuse bit: "U: Unprogrammed = 1, P: Program = 0".
#[derive(Clone, Copy, Debug, PartialEq, Eq)]
pub enum Bit {
    Programmed,
    Unprogrammed,
}

impl From<Bit> for u8 {
    ghost from_gives = { λ bit value. (value ≡ bit_value bit) × (value ≤ 1) };

    fn from(bit: Bit) -> u8 {
        match bit {
            Bit::Programmed => 0,
            Bit::Unprogrammed => 1,
        }
    }
}

// What "Program Configuration Information" sets.
#[derive(Clone, Copy, Debug, PartialEq, Eq)]
pub enum Setting {
    SsbLevel1,
    SsbLevel2,
    BootErased,
    Bsb(u8),
    Sbv(u8),
    Bljb(Bit),
    X2(Bit),
}

// What "Read Configuration Information or Manufacturer Information" reads: a byte that no board changes, with its value, or one of
// the configuration.
#[derive(Clone, Copy, Debug, PartialEq, Eq)]
pub enum Byte {
    Fixed(u8),
    Ssb,
    Bsb,
    Sbv,
    Hsb,
}

// A command, as the tables of document 002 have it. The bytes of a program record stand beside it, in the record's data.
#[derive(Clone, Copy, Debug, PartialEq, Eq)]
pub enum Command {
    Program(FlashAddress),
    Display(FlashAddress, FlashAddress),
    BlankCheck(FlashAddress, FlashAddress),
    EraseBlock(Block),
    EraseChip,
    Write(Setting),
    Read(Byte),
    StartReset,
    StartAt(FlashAddress),
}
