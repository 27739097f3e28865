//! Why a call of a shell failed.
ghost use Rattle.std.specs.IoError.{error_kind};
ghost use Rattle.std.specs.Prelude.{◌≡◌, map, None, option_map, string_bytes, IfSome};
ghost use Rattle.std.specs.declared.io.Error as io;
ghost use Rattle.duct_system.specs.EntryView.{entry_view};
ghost use Rattle.duct_system.specs.declared.error.Error.TheVariants.{Memory, System};
ghost use Rattle.duct_shell.specs.Converted.{NamesPath, io_kind, lines_cause};
ghost use Rattle.duct_tasks.specs.FailedRequest.{Names};
ghost use Rattle.duct_shell.specs.declared.failure.Cause.TheVariants as cause;

use duct::{Entry, Error, Fault};
use duct_tasks::{FailedRun, LateLines, LinesError, request_text};
use std::alloc::{AllocError, AllocFailed, Global};
use std::env::VarError;
use std::io::ErrorKind;
use std::{error, fmt, io};

/// What made a call of a shell, or another call of a program, fail.
#[derive(Debug, Drop)]
pub enum Cause {
    /// A call of the library failed.
    Run(Error),
    /// A call of std's failed.
    Io(io::Error),
    /// A variable of the program is not there, or is not UTF-8.
    Variable(VarError),
    /// A run whose output was kept has failed.
    Failed(FailedRun),
    /// A run whose lines were handed on was late.
    Late(LateLines),
    /// No job of the shell has the key: it is spent, or another shell's.
    NoJob,
}

/// Why a call failed. It prints as its request if there is one, as in
/// `spawn of "foo" in "/in": NotFound`, and else as its cause. Its `{:?}` is the same text, so a
/// `main` that returns it prints one readable line.
#[derive(Drop)]
pub struct Failure {
    /// What made the call fail.
    pub cause: Cause,

    /// What was requested and refused, as text: the request of a start to the system, or the path
    /// that `Failure::at` got, with std's words. It is `None` where neither is known, and where
    /// there was no memory for the text.
    pub request: Option<String>,
}

impl Failure {
    // Returns the failure of a call that failed with this error, and added these entries.
    pub(crate) fn new(alloc: Global, added: &[Entry], error: Error) -> Failure
        ensures cause { result.cause ≡ cause.Run error }
        ensures request { Names (map entry_view added.now) result.request }
    {
        let request = request_text(alloc, added).unwrap_or(None);
        let cause = Cause::Run(error);
        Failure { cause, request }
    }

    /// Returns the failure of a call of std's with a path, which prints as in
    /// `config.txt: No such file or directory (os error 2)`. Where there is no memory for that, it
    /// prints as the error alone.
    ///
    /// Example: `fs::read_to_string(rt, path).map_err(|error| Failure::at(alloc, path, error))?`
    pub fn at(alloc: Global, path: &str, error: io::Error) -> Failure
        ensures cause { result.cause ≡ cause.Io error }
        ensures request { IfSome result.request (λ text. NamesPath path.now (string_bytes text)) }
    {
        let request = match error.to_string(alloc) {
            Ok(text) => format!(in alloc; "{path}: {text}").ok(),
            Err(_) => None,
        };
        let cause = Cause::Io(error);
        Failure { cause, request }
    }
}

impl fmt::Display for Failure {
    ghost output = { λ failure. option_map string_bytes failure.request };

    fn fmt<W: fmt::Write>(&self, f: &mut fmt::Formatter<W>) -> fmt::Result {
        match (&self.request, &self.cause) {
            (Some(request), _) => f.write_str(request.as_str()),
            (None, Cause::Run(error)) => write!(f, "{error}"),
            (None, Cause::Io(error)) => write!(f, "{error}"),
            (None, Cause::Variable(error)) => write!(f, "{error}"),
            (None, Cause::Failed(run)) => write!(f, "{run}"),
            (None, Cause::Late(late)) => write!(f, "{late}"),
            (None, Cause::NoJob) => f.write_str("no job has this key"),
        }
    }
}

impl fmt::Debug for Failure {
    ghost debug_output = { λ failure. option_map string_bytes failure.request };

    fn fmt<W: fmt::Write>(&self, f: &mut fmt::Formatter<W>) -> fmt::Result {
        write!(f, "{self}")
    }
}

impl error::Error for Failure {}

impl From<Cause> for Failure {
    ghost from_gives = { λ cause failure. failure ≡ record { cause = cause; request = None } };

    fn from(cause: Cause) -> Failure {
        Failure {
            cause,
            request: None,
        }
    }
}

impl From<Error> for Failure {
    ghost from_gives = { λ error failure.
        failure ≡ record { cause = cause.Run error; request = None } };

    fn from(error: Error) -> Failure {
        Failure::from(Cause::Run(error))
    }
}

impl From<AllocError> for Failure {
    ghost from_gives = { λ _ failure.
        failure ≡ record { cause = cause.Run Memory; request = None } };

    fn from(_error: AllocError) -> Failure {
        Failure::from(Error::Memory)
    }
}

impl<T: Drop> From<AllocFailed<T>> for Failure {
    ghost from_gives = { λ _ failure.
        failure ≡ record { cause = cause.Run Memory; request = None } };

    fn from(_error: AllocFailed<T>) -> Failure {
        Failure::from(Error::Memory)
    }
}

impl From<Fault> for Failure {
    ghost from_gives = { λ fault failure.
        failure ≡ record { cause = cause.Run (System fault); request = None } };

    fn from(fault: Fault) -> Failure {
        Failure::from(Error::System(fault))
    }
}

impl From<io::Error> for Failure {
    ghost from_gives = { λ error failure.
        failure ≡ record { cause = cause.Io error; request = None } };

    fn from(error: io::Error) -> Failure {
        Failure::from(Cause::Io(error))
    }
}

impl From<VarError> for Failure {
    ghost from_gives = { λ error failure.
        failure ≡ record { cause = cause.Variable error; request = None } };

    fn from(error: VarError) -> Failure {
        Failure::from(Cause::Variable(error))
    }
}

impl From<FailedRun> for Failure {
    ghost from_gives = { λ run failure.
        failure ≡ record { cause = cause.Failed run; request = None } };

    fn from(run: FailedRun) -> Failure {
        Failure::from(Cause::Failed(run))
    }
}

impl From<LateLines> for Failure {
    ghost from_gives = { λ late failure.
        failure ≡ record { cause = cause.Late late; request = None } };

    fn from(late: LateLines) -> Failure {
        Failure::from(Cause::Late(late))
    }
}

impl From<LinesError> for Failure {
    ghost from_gives = { λ error failure.
        failure ≡ record { cause = lines_cause error; request = None } };

    fn from(error: LinesError) -> Failure {
        match error {
            LinesError::Run(error) => Failure::from(error),
            LinesError::Closure(error) => Failure::from(error),
        }
    }
}

/// It is the error of std's that was the cause, if no path stands before it. Else it has the kind
/// of the cause, and the text of the request, or of the command that failed, cut at 80 bytes.
impl From<Failure> for io::Error {
    fn from(failure: Failure) -> io::Error
        ensures kind { error_kind result ≡ io_kind failure.cause }
        ensures same { (error : io.Error) → failure
            ≡ record { cause = cause.Io error; request = None } → result ≡ error }
    {
        let kind = io_kind(&failure.cause);
        match (&failure.request, &failure.cause) {
            (Some(request), _) => io::Error::new(kind, request.as_str()),
            (None, Cause::Run(Error::Checked(message))) => io::Error::new(kind, message.as_str()),
            (None, Cause::Io(error)) => *error,
            (None, Cause::Run(_) | Cause::Variable(_) | Cause::NoJob) => io::Error::from(kind),
            (None, Cause::Failed(_) | Cause::Late(_)) => io::Error::from(kind),
        }
    }
}

// Returns the kind of the `io::Error` that a failure with this cause becomes.
fn io_kind(cause: &Cause) -> ErrorKind
    ensures { result ≡ io_kind cause.now }
{
    match cause {
        Cause::Run(Error::System(fault)) => ErrorKind::from(fault.kind),
        Cause::Run(Error::Hook(fault)) => ErrorKind::from(fault.kind),
        Cause::Run(Error::NotUtf8) | Cause::Variable(VarError::NotUnicode) =>
            ErrorKind::InvalidData,
        Cause::Run(Error::Memory) | Cause::Variable(VarError::OutOfMemory) =>
            ErrorKind::OutOfMemory,
        Cause::Run(Error::Checked(_) | Error::HookEnd(_) | Error::Deadline) => ErrorKind::Other,
        Cause::Io(error) => error.kind(),
        Cause::Variable(VarError::NotPresent) => ErrorKind::NotFound,
        Cause::Failed(_) => ErrorKind::Other,
        Cause::Late(_) => ErrorKind::TimedOut,
        Cause::NoJob => ErrorKind::InvalidInput,
    }
}
