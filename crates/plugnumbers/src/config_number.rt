// A configuration as a number of 32 bits.
ghost use Rattle.std.specs.Prelude.{◌≡◌};
ghost use Rattle.plugnumbers.specs.Layout.{pack_config, config_of};

use plug::Config;

// The number of a configuration.
pub fn pack_config(config: Config) -> u32
    ensures { result ≡ pack_config config }
{
    u32::from_le_bytes([config.bsb, config.sbv, config.ssb, config.hsb])
}

// The configuration that a number stands for.
pub fn config_of(n: u32) -> Config
    ensures { result ≡ config_of n }
{
    let [bsb, sbv, ssb, hsb] = n.to_le_bytes();
    Config { bsb, sbv, ssb, hsb }
}
