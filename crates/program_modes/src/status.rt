//! How the program ends.

ghost use Rattle.std.specs.Prelude.{◌≡◌};
ghost use Rattle.std.specs.Process.{exit_status};
ghost use Rattle.program_modes.specs.Codes.{code_of};

use std::process::ExitCode;

/// How the program ends.
#[derive(Clone, Copy, Debug, PartialEq, Eq)]
pub enum Status {
    /// The whole output was written: of a run that is done, a check, a cut, or an audit that found the report right.
    Done,
    /// The words have no settings; that was written.
    BadWords,
    /// The scene was refused; its line was written.
    SceneRefused,
    /// A run passed the speed limit; the whole output was written.
    SpeedLimit,
    /// A run passed the round limit; the whole output was written.
    RoundLimit,
    /// The source failed; nothing was written.
    ReadFault,
    /// The sink failed; a prefix of the output was written.
    WriteFault,
    /// Out of memory; a prefix of the output was written.
    NoMemory,
    /// The claimed report isn't the report; the whole output was written.
    Wrong,
}

impl Status {
    /// The status with which the process ends.
    pub fn code(&self) -> u8
        ensures { result ≡ code_of self.now }
    {
        match self {
            Status::Done => 0,
            Status::BadWords => 2,
            Status::SceneRefused => 3,
            Status::SpeedLimit => 4,
            Status::RoundLimit => 5,
            Status::ReadFault => 6,
            Status::WriteFault => 7,
            Status::NoMemory => 8,
            Status::Wrong => 9,
        }
    }

    /// The process ends with it.
    pub fn exit_code(&self) -> ExitCode
        ensures { exit_status result ≡ code_of self.now }
    {
        ExitCode::from(self.code())
    }
}
