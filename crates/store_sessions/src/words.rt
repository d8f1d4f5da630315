//! Single words of a line: versions, files and fills.
ghost use Rattle.std.specs.Prelude.{IfOk};
ghost use Rattle.ubik_types.specs.Version.{IsVersion};

use disk_base::{FileNo, Fill};
use session_rows::{Fault, hex_byte, number_in};
use ubik_types::{MAX_COUNTER, Version};

/// A version, as `1076.2`.
pub fn version_of(word: &str) -> Result<Version, Fault>
    ensures { IfOk result IsVersion }
{
    let (epoch, counter) = word.split_once('.').ok_or(Fault::Form)?;
    let (epoch, counter) = (number_in(epoch)?, number_in(counter)?);
    if epoch > MAX_COUNTER || counter > MAX_COUNTER {
        return Err(Fault::Form);
    }
    Ok(Version { epoch, counter })
}

/// One of the three files of a disk.
pub fn file_of(word: &str) -> Result<FileNo, Fault> {
    match word {
        "database" => Ok(FileNo::Database),
        "log" => Ok(FileNo::Log),
        "incoming" => Ok(FileNo::Incoming),
        _ => Err(Fault::Form),
    }
}

/// What a stop leaves: `old`, `new`, or a byte in two hexadecimal digits.
pub fn fill_of(word: &str) -> Result<Fill, Fault> {
    match word {
        "old" => Ok(Fill::Old),
        "new" => Ok(Fill::New),
        _ => match word.as_bytes() {
            [high, low] => Ok(Fill::Byte(hex_byte(*high, *low)?)),
            _ => Err(Fault::Form),
        },
    }
}
