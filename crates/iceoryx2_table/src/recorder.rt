//! The recorder, which writes an access down before the access changes anything.

ghost use Rattle.std.specs.Prelude.{OnOk, OnErr};

/// The error of a recorder: the access was not written down.
#[derive(Clone, Copy, Debug, PartialEq, Eq)]
pub struct NotWritten;

/// Writes an access down. An access that will change something asks the recorder once, after all its
/// tests and all its requests for memory, and before its first change. An access that is refused or
/// changes nothing doesn't ask.
pub trait Recorder {
    /// The recorder wrote the access down.
    ghost written: { Self → Self → Type 0 };

    /// The recorder refused.
    ghost refused: { Self → Self → Type 0 };

    /// Writes down the access that asks. On an error that access changes nothing.
    fn write_down(&mut self) -> Result<(), NotWritten>
        ensures written { OnOk result (written self.old self.new) }
        ensures refused { OnErr result (refused self.old self.new) };
}

/// A recorder that writes nothing, and never refuses.
#[derive(Clone, Copy, Debug, PartialEq, Eq)]
pub struct Unrecorded;

impl Recorder for Unrecorded {
    ghost written = { λ _ _. Unit {0} };

    ghost refused = { λ _ _. ⊥ };

    fn write_down(&mut self) -> Result<(), NotWritten> {
        Ok(())
    }
}
