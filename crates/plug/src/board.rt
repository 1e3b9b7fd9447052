// The configuration bytes of the board.
#[derive(Clone, Copy, Debug, PartialEq, Eq)]
pub struct Config {
    pub bsb: u8,
    pub sbv: u8,
    pub ssb: u8,
    pub hsb: u8,
}
