//! States that answers are lines.

ghost use Rattle.std.specs.Prelude.{◌≡◌, ◌<◌, ◌^◌, ℕ, All, List, Option, length};
ghost use Rattle.iceoryx2_access.specs.Registered.{Registered};
ghost use Rattle.iceoryx2_builder.specs.Commands.{slot_count};
ghost use Rattle.iceoryx2_builder.specs.declared.command.Reply.{Reply};
ghost use Rattle.iceoryx2_world.specs.declared.listing.Entry.{Entry};
ghost use Rattle.escaped_serve.specs.Entries.{TellsEntries};
ghost use Rattle.escaped_serve.specs.Lines.{plain_reply, wrong_reply};
ghost use Rattle.escaped_serve.specs.OneLine.{IsEntryWithin, IsOneLine, IsShort, IsWithin};
ghost use Rattle.iceoryx2_errors.specs.Numbers.{numbered};
ghost use Rattle.escaped_serve.specs.Questions.{IsBytesReply, abandoned_reply, only_over_a_log, refusal_reply};
ghost use Rattle.escaped_serve.specs.Questions.{shown_reply};
ghost use Rattle.escaped_serve.specs.Replies.{IsEscapedReply};

/// States that each answer is one line of printable ASCII, if everything is within its limits: to a command, unless it
/// is a listing, to each question, and to a plain line. What is told of a wrong line has words of that line, and isn't
/// covered.
pub fn law_of_one_line()
    ensures replies { (slot : ℕ) (r : Reply) (text : List ℕ) → slot < slot_count → IsShort r
        → IsEscapedReply slot r text → IsOneLine text }
    ensures shown { (slot : ℕ) (held : Option Registered) → slot < slot_count → IsWithin held
        → IsOneLine (shown_reply slot held) }
    ensures bytes { (slot : ℕ) (held : Option Registered) (text : List ℕ) → slot < slot_count
        → IsBytesReply slot held text → IsOneLine text }
    ensures abandoned { (slot : ℕ) (held : Option Registered) → slot < slot_count
        → IsOneLine (abandoned_reply slot held) }
    ensures entries { (entries : List Entry) (text : List ℕ) → length entries < 2 ^ 64
        → All IsEntryWithin entries → TellsEntries entries text → IsOneLine text }
    ensures refusals { (number : ℕ) (text : List ℕ) → number < 2 ^ 64 → text ≡ refusal_reply number (numbered number)
        → IsOneLine text }
    ensures others { IsOneLine only_over_a_log }
    ensures plain { (told : List ℕ) → IsOneLine (plain_reply told) }
    ensures wrong { (told : List ℕ) → IsOneLine (wrong_reply told) }
{}
