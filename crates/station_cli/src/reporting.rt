//! What is printed where the words of the command line give no job.
ghost use Rattle.std.specs.Prelude.{◌++◌, ◌∷◌, [], OnOk};
ghost use Rattle.std.specs.Io.KnownBytes.{Appends};
ghost use Rattle.station_cli.specs.Prelude.{HasStatus, IsReported, line_of};

use crate::failure::Failure;
use crate::job::WordsFault;
use std::io;
use std::io::Write;

/// Prints why there is no job: help or the version on the output, and the rest on `err`. A text on
/// `err` that can't be written is passed over. The answer is the status that the program ends with: 0
/// for help or the version that was printed, 2 for words that are refused, else 1.
pub fn report<W: Write, E: Write>(fault: &WordsFault, output: &mut W, err: &mut E) -> u8
    ensures status { HasStatus fault.now result }
    ensures printed { IsReported fault.now result (W.contents output.old) (W.contents output.new)
        (E.contents err.old) (E.contents err.new) }
{
    match fault {
        WordsFault::Help(text) => {
            if write_text(text.as_str(), output).is_ok() {
                return 0;
            }
            let _ = write_line(Failure::WriteFailed, err);
            1
        }
        WordsFault::Refused(text) => {
            let _ = write_text(text.as_str(), err);
            2
        }
        WordsFault::NoMemory => {
            let _ = write_line(Failure::NoMemory, err);
            1
        }
    }
}

/// Writes a text, and flushes.
fn write_text<W: Write>(text: &str, writer: &mut W) -> io::Result<()>
    ensures { OnOk result (Appends (W.contents writer.old) (W.contents writer.new) text.now) }
{
    write!(writer, "{text}")?;
    writer.flush()
}

/// Writes the line of a failure.
fn write_line<W: Write>(failure: Failure<'_>, writer: &mut W) -> io::Result<()>
    ensures { OnOk result (Appends (W.contents writer.old) (W.contents writer.new)
        (line_of failure.entry ++ 10 ∷ [])) }
{
    writeln!(writer, "{failure}")
}
