//! Tables of limits.

use amqp_endpoint::Config;
use amqp_frame::Device;
use amqp_script::read_limits;
use std::alloc::Global;
use test_row_files::Miss;

/// Links have these names.
const NAMES: [&str; 10] = ["", "a", "ab", "abc", "b", "x", "7", "p0", "p9", "p15"];

/// Returns the deliveries and the bytes of a message that a table allows to links of each name, or the fault of the table.
/// 100 and 1,048,576 are those of a link that no row is for.
pub fn bounds_by(alloc: Global, table: &[u8]) -> Result<String, Miss> {
    let mut table = table;
    let name = String::from_str(alloc, "r")?;
    let config = Config::checked(name, 65536, 7, 7, 100, 1 << 20, 1000).ok_or("no settings")?;
    match read_limits(alloc, config, &mut Device::new(&mut table)) {
        Ok(config) => bounds_of(alloc, &config),
        Err(fault) => Ok(format!(in alloc; "{fault}")?),
    }
}

fn bounds_of(alloc: Global, config: &Config) -> Result<String, Miss> {
    let mut told = String::new(alloc);
    for name in NAMES {
        let bounds = config.bounds_for(name.as_bytes());
        let (allowed, most) = (bounds.allowed(), bounds.max_message_size());
        if !told.is_empty() {
            told.push(' ')?;
        }
        write!(told, "{name}={allowed}:{most}")?;
    }
    Ok(told)
}
