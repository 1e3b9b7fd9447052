// A configuration as a number.
ghost use Rattle.std.specs.Prelude.{◌≡◌};
ghost use Rattle.numbers.specs.Layout.{pack_config, config_of};

use config::Config;

// The number of a configuration.
pub fn pack_config(config: Config) -> u64
    ensures { result ≡ pack_config config }
{
    u64::from_le_bytes([
        config.bsb,
        config.sbv,
        config.p1cf,
        config.p3cf,
        config.p4cf,
        config.ssb,
        config.eb,
        config.hsb,
    ])
}

// The configuration that a number stands for.
pub fn config_of(n: u64) -> Config
    ensures { result ≡ config_of n }
{
    let [bsb, sbv, p1cf, p3cf, p4cf, ssb, eb, hsb] = n.to_le_bytes();
    Config {
        bsb,
        sbv,
        p1cf,
        p3cf,
        p4cf,
        ssb,
        eb,
        hsb,
    }
}
