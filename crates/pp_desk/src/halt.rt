//! What ends a stage early that may be refused.

ghost use Rattle.std.specs.Prelude.{◌≡◌};
ghost use Rattle.pp_desk.specs.Asking.{settled};
ghost use Rattle.pp_desk.specs.declared.halt.Halt.TheVariants as halts;
ghost use Rattle.pp_desk.specs.declared.stop.Stop.TheVariants as stops;

use crate::Stop;
use pp_base::Memory;

/// What ends a stage early that may be refused: what stopped the desk, or a refusal. `?` passes both on.
#[derive(Debug, Drop)]
pub enum Halt<R> {
    /// An object failed, or memory was wanting.
    Stopped(Stop),
    /// The stage was refused: a value that its script gives.
    Refused(R),
}

impl<R> From<Stop> for Halt<R> {
    ghost from_gives = { λ stop e. e ≡ halts.Stopped stop };

    fn from(stop: Stop) -> Self {
        Halt::Stopped(stop)
    }
}

impl<R> From<Memory> for Halt<R> {
    ghost from_gives = { λ _ e. e ≡ halts.Stopped stops.Memory };

    fn from(_: Memory) -> Self {
        Halt::Stopped(Stop::Memory)
    }
}

/// A refusal as an answer, beside what was given.
pub fn settle<T, R>(asked: Result<T, Halt<R>>) -> Result<Result<T, R>, Stop>
    ensures { result ≡ settled asked }
{
    match asked {
        Ok(given) => Ok(Ok(given)),
        Err(Halt::Refused(refused)) => Ok(Err(refused)),
        Err(Halt::Stopped(stop)) => Err(stop),
    }
}
