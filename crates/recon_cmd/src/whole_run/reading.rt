//! Reads the input scan of a command. Depends on `scan`, which parses the bytes of a file.
ghost use Rattle.std.specs.Prelude.{◌≡◌, false, IfOk, IfSome};
ghost use Rattle.host.specs.Whole.{OnlyReads};
ghost use Rattle.command_run.specs.Steps.{CountsFaults};
ghost use Rattle.recon_cmd.specs.OptionViews.{options_view};
ghost use Rattle.recon_cmd.specs.Steps.{IsReading, IsUnderstood};

use crate::lines::{line_of_refusal, line_of_too_long_scan};
use crate::options::Options;
use command_run::{Line, NoMemory, Stop};
use host::{Host, ReadRefusal, read_all};
use scan::read_scan;
use scan_rows::Scan;
use std::alloc::Global;

/// The result of reading a scan.
#[derive(Drop)]
pub enum Reading {
    /// The scan of the file, and the file's bytes.
    Scan(Scan, Vec<u8>),
    /// The file is rejected, and this line states why.
    Refused(Line),
}

/// Reads the scan of the named file, with the scale and the fixed scanner of these options. The file may be as long as the
/// limit.
pub fn read_input<H: Host>(
    alloc: Global,
    host: &mut H,
    name: &str,
    options: &Options,
    limit: u64,
) -> Result<Reading, Stop>
    requires { (H.state host.old).writing ≡ false }
    ensures read { IfOk result (λ reading. IfSome (H.state host.old).told (IsReading limit name.now (options_view options.now) reading)) }
    ensures only { OnlyReads (H.state host.old) (H.state host.new) }
    ensures cause { CountsFaults result (H.state host.old).faults (H.state host.new).faults }
{
    let bytes = match read_all(alloc, host, name, limit) {
        Ok(bytes) => bytes,
        Err(ReadRefusal::TooLong) => return Ok(Reading::Refused(Line::Fixed(
            line_of_too_long_scan(),
        ))),
        Err(ReadRefusal::Failed) => return Err(Stop::Failed),
        Err(ReadRefusal::NoMemory) => return Err(Stop::NoMemory),
    };
    Ok(understand_scan(alloc, bytes, options)?)
}

/// Parses the bytes of a scan's file.
fn understand_scan(alloc: Global, bytes: Vec<u8>, options: &Options) -> Result<Reading, NoMemory>
    ensures { IfOk result (IsUnderstood bytes.items (options_view options.now)) }
{
    match read_scan(alloc, &bytes, options.unit, options.fixed) {
        Ok(scan) => Ok(Reading::Scan(scan, bytes)),
        Err(why) => Ok(Reading::Refused(Line::Made(line_of_refusal(alloc, why)?))),
    }
}
