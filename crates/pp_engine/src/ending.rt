// How a run ends.
ghost use Rattle.std.specs.Prelude.{◌≡◌};
ghost use Rattle.pp_engine.specs.Endings.{cause_of_stop, status_of};

use pp_desk::Stop;
use pp_load::LoadRefusal;
use pp_options::UsageFault;
use pp_report::ReportRefusal;

/// Why a run ended.
#[derive(Clone, Copy, Debug, PartialEq, Eq)]
pub enum Cause {
    /// All was done.
    Done,
    /// A word is wrong.
    Usage(UsageFault),
    /// The profile could not be loaded.
    Refused(LoadRefusal),
    /// The report that the words ask for could not be made.
    Report(ReportRefusal),
    /// In the shell: 16,777,216 bytes of standard input were read, and no line ends in what is left of them.
    InputTooLong,
    /// A file failed while it was read or written.
    FileFault,
    /// Standard input failed.
    InputFault,
    /// Standard output failed.
    OutFault,
    /// Standard error failed.
    ErrFault,
    /// Want of memory.
    Memory,
}

/// The end of a run: its cause, and the exit status that tells it.
#[derive(Clone, Copy, Debug, PartialEq, Eq)]
pub struct Ending {
    /// 0 where all was done, 1 for a refusal, 2 for a wrong word. 3 is for a fault of the outside, 4 for want of
    /// memory.
    pub status: u8,
    /// Why the run ended.
    pub cause: Cause,
}

impl Ending {
    /// The ending of this cause.
    pub fn of(cause: Cause) -> Ending
        ensures cause { result.cause ≡ cause }
        ensures status { result.status ≡ status_of cause }
    {
        let status = match cause {
            Cause::Done => 0,
            Cause::Refused(_) | Cause::Report(_) | Cause::InputTooLong => 1,
            Cause::Usage(_) => 2,
            Cause::FileFault | Cause::InputFault | Cause::OutFault | Cause::ErrFault => 3,
            Cause::Memory => 4,
        };
        Ending { status, cause }
    }
}

/// The cause that a stop becomes.
pub fn cause_of_stop(stop: Stop) -> Cause
    ensures { result ≡ cause_of_stop stop }
{
    match stop {
        Stop::File => Cause::FileFault,
        Stop::Input => Cause::InputFault,
        Stop::Out => Cause::OutFault,
        Stop::Err => Cause::ErrFault,
        Stop::Memory => Cause::Memory,
    }
}
