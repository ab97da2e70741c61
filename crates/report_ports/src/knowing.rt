//! Whether a source over a reader, and a sink over a writer, tell the bytes of that reader or writer, if these are
//! known.

ghost use Rattle.std.specs.Prelude.{Bool, true, false};

/// Whether known bytes are told.
pub trait Tells {
    /// Whether they are.
    ghost tells: { Bool };
}

/// Known bytes are told. A source or sink that tells them has known them from the beginning.
pub struct Known;

impl Tells for Known {
    ghost tells = { true };
}

/// No bytes are told, also if they are known.
pub struct Silent;

impl Tells for Silent {
    ghost tells = { false };
}
