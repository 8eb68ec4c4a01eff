// How a program ends.
ghost use Rattle.std.specs.Prelude.{◌≡◌, OnOk, IfErr};
ghost use Rattle.std.specs.Process.{exit_status};
ghost use Rattle.cli.specs.Statuses.{EndsWith};

use crate::error::{Error, Result};
use std::io;
use std::process::ExitCode;

/// Ends a program: says on standard error what went wrong, if anything did, and answers the status.
/// Help and the version are printed on standard output; where that fails, the status is that of the failure.
pub fn end<R: Print + Eprint>(rt: &R, name: &str, outcome: Result<()>) -> ExitCode
    ensures ok { OnOk outcome (exit_status result ≡ 0) }
    ensures err { IfErr outcome (λ e. EndsWith e (exit_status result)) }
{
    let Err(error) = outcome else {
        return ExitCode::SUCCESS;
    };
    if let Error::Shown(text) = &error {
        if let Err(failed) = rt.print(text.as_str()) {
            return ExitCode::from(Error::Output(failed).status());
        }
    }
    // where standard error cannot be written, the status alone has to tell
    let _ = tell(rt, name, &error);
    ExitCode::from(error.status())
}

// Says what went wrong, behind the name of the program.
fn tell(rt: &impl Eprint, name: &str, error: &Error) -> io::Result<()> {
    match error {
        Error::Shown(_) => Ok(()),
        Error::CommandLine(text) => eprint!(rt; "{name}: {text}"),
        Error::Failed(text) => eprintln!(rt; "{name}: {text}"),
        Error::NoMemory => eprintln!(rt; "{name}: there is not enough memory"),
        Error::Strict => eprintln!(rt; "{name}: an item was refused, or the log is faulty"),
        Error::Output(error) if error.kind() == io::ErrorKind::BrokenPipe => Ok(()),
        Error::Output(error) => eprintln!(rt; "{name}: standard output: {error}"),
    }
}
