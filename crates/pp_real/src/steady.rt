//! Readers and writers of types that tell what they hold always, or never.
ghost use Rattle.std.specs.Prelude.{◌≡◌, is_some, refl};

use std::io::{Read, Stderr, Stdin, Stdout, Write};

/// A reader of a type that tells what is left always, or never: no read makes it known or unknown. The machine's input
/// never tells, and a slice of bytes always does. A type says so by a proof, which takes no code.
pub trait SteadyRead: Read {
    ghost steady_read: { (a b : Self) → is_some (Self.remaining a) ≡ is_some (Self.remaining b) };
}

/// A writer of a type that tells what it holds always, or never: no write makes it known or unknown. The machine's
/// outputs never tell, and a vector of bytes always does. A type says so by a proof, which takes no code.
pub trait SteadyWrite: Write {
    ghost steady_write: { (a b : Self) → is_some (Self.contents a) ≡ is_some (Self.contents b) };
}

impl SteadyRead for Stdin {
    ghost steady_read = { λ a b. refl };
}

impl SteadyRead for &[u8] {
    ghost steady_read = { λ a b. refl };
}

impl SteadyWrite for Stdout {
    ghost steady_write = { λ a b. refl };
}

impl SteadyWrite for Stderr {
    ghost steady_write = { λ a b. refl };
}

impl SteadyWrite for Vec<u8> {
    ghost steady_write = { λ a b. refl };
}
