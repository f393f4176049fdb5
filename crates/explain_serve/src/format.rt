//! What the program prints.

ghost use Rattle.std.specs.Prelude.{◌≡◌};
ghost use Rattle.explain_serve.specs.Formats.{format_named, head_of};

use crate::diagram::HEAD;

/// What is printed of a command.
#[derive(Clone, Copy)]
pub enum Format {
    /// The reply, then the accesses, and for a refusal its cause and what can be done.
    Lines,
    /// A Mermaid sequence diagram: the accesses as messages, and the reply as a note.
    Diagram,
}

impl Format {
    /// Returns the format that an argument asks for: `--diagram`, or none.
    pub fn named(argument: &str) -> Option<Format>
        ensures { result ≡ format_named argument.now }
    {
        match argument {
            "--diagram" => Some(Format::Diagram),
            _ => None,
        }
    }

    /// Returns what is printed before the first line is read.
    pub fn head(self) -> &'static str
        ensures { result.now ≡ head_of self }
    {
        match self {
            Format::Lines => "",
            Format::Diagram => HEAD,
        }
    }
}
