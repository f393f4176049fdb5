//! What keeps a program from going on.

use crate::trouble::Trouble;
use negotiate_serve::ending::ServeError;

/// What keeps a program from going on.
#[derive(Clone, Copy)]
pub enum Halt {
    /// The input, the output or memory, as in `negotiate`.
    Serving(ServeError),
    /// The log can't be used any more, of which the writer of errors has a line.
    Log(Trouble),
    /// Something of the node stays, because the log refused to release it.
    Owing,
}

impl From<ServeError> for Halt {
    ghost use Rattle.std.specs.Prelude.{◌≡◌};
    ghost use Rattle.wulameron_place.specs.declared.halt.Halt.TheVariants as halt;

    ghost from_gives = { λ fault given. given ≡ halt.Serving fault };

    fn from(fault: ServeError) -> Halt {
        Halt::Serving(fault)
    }
}
