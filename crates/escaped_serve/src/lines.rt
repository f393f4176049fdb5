//! How the lines of an escaped session are answered.

ghost use Rattle.std.specs.Prelude.{◌≡◌, ◌++◌, OnOk, codes, string_bytes};
ghost use Rattle.negotiate_lines.specs.Leaves.{leaf_of};
ghost use Rattle.negotiate_lines.specs.Lines.{IsLine, IsLineIn};
ghost use Rattle.negotiate_lines.specs.Questions.{IsRequest};
ghost use Rattle.negotiate_lines.specs.declared.leaf.Form.TheVariants as form;
ghost use Rattle.negotiate_lines.specs.declared.line.Line.TheVariants as parsed;
ghost use Rattle.negotiate_lines.specs.WrongTexts.{IsWrongText};
ghost use Rattle.negotiate_serve.specs.Replies.{GrowsBy};
ghost use Rattle.escaped_serve.specs.Lines.{AnswersAsked, AnswersEscapedLine, AnswersKnown, AnswersPlain};
ghost use Rattle.escaped_serve.specs.Lines.{begins_otherwise};
ghost use Rattle.escaped_serve.specs.Lines.{no_question_reply, plain_reply, wrong_reply};

use crate::answerer::Asked;
use negotiate_lines::escape::escape_word;
use negotiate_lines::leaf::{Form, escape_leaf};
use negotiate_lines::line::{Line, parse, parse_in};
use negotiate_lines::line_error::LineError;
use negotiate_lines::question::{Question, Request, parse_request};
use negotiate_lines::wrong_text::wrong_text;
use negotiate_serve::answerer::Answerer;
use negotiate_serve::lines::{Lines, reply_wrong};
use std::alloc::AllocError;

/// Room for each reply to a plain command except a listing. It is asked for before a command that changes something, so
/// that there is memory for its reply.
const SHORT_REPLY: usize = 256;

/// Escaped lines: commands, questions, and whole plain lines. Each line that isn't blank has a reply, and none ends the
/// session.
#[derive(Clone, Copy)]
pub struct EscapedLines;

impl<A: Asked> Lines<A> for EscapedLines {
    ghost lines = { λ e. AnswersEscapedLine A.answers A.answers_escaped A.asked };

    ghost stands = { A.stands };

    ghost ends_at_wrong = { λ e. ⊥ };

    fn answer_line(
        &self,
        _number: u64,
        line: &[u8],
        answerer: &mut A,
        text: &mut String,
    ) -> Result<bool, AllocError> {
        answer_request(line, answerer, text)?;
        Ok(true)
    }
}

/// Answers a line as what it is. A line that is a command is nothing else, so that is tried first.
fn answer_request<A: Asked>(
    line: &[u8],
    answerer: &mut A,
    text: &mut String,
) -> Result<(), AllocError>
    ensures answered { A.stands answerer.old → OnOk result (GrowsBy
        (λ added. AnswersEscapedLine A.answers A.answers_escaped A.asked answerer.old line.now added answerer.new)
        (string_bytes text.old) (string_bytes text.new)) }
    ensures stands { A.stands answerer.old → A.stands answerer.new }
{
    let known = parse_in(*text.allocator(), Form::Escaped, line)?;
    if begins_otherwise(&known) {
        return answer_other(line, answerer, text);
    }
    answer_known(line, known, answerer, text)
}

/// Returns whether a line begins with no word of a command.
fn begins_otherwise(known: &Line<'_>) -> bool
    ensures { result ≡ begins_otherwise known.now }
{
    match known {
        Line::NotACommand(LineError::NoSuchCommand(_)) => true,
        _ => false,
    }
}

/// Answers a line that may be a question.
fn answer_other<A: Asked>(
    line: &[u8],
    answerer: &mut A,
    text: &mut String,
) -> Result<(), AllocError>
    ensures answered { A.stands answerer.old → OnOk result (GrowsBy
        (λ added. AnswersEscapedLine A.answers A.answers_escaped A.asked answerer.old line.now added answerer.new)
        (string_bytes text.old) (string_bytes text.new)) }
    ensures stands { A.stands answerer.old → A.stands answerer.new }
{
    match parse_request(*text.allocator(), line)? {
        Request::Line(known) => answer_known(line, known, answerer, text),
        Request::Question(question) => answer_question(question, answerer, text),
        Request::NotAQuestion(word) => answer_no_question(word, text),
    }
}

/// Answers a line that begins with no word of a question, and is this.
fn answer_known<A: Asked>(
    line: &[u8],
    known: Line<'_>,
    answerer: &mut A,
    text: &mut String,
) -> Result<(), AllocError>
    requires { IsLineIn form.Escaped line.now known }
    ensures answered { A.stands answerer.old → OnOk result (GrowsBy
        (λ added. AnswersKnown A.answers A.answers_escaped A.asked answerer.old line.now known.entry added answerer.new)
        (string_bytes text.old) (string_bytes text.new)) }
    ensures stands { A.stands answerer.old → A.stands answerer.new }
{
    match known {
        Line::Blank => Ok(()),
        Line::Command(command) => answerer.answer_escaped(line, command, text),
        Line::NotACommand(wrong) => reply_wrong(wrong, "", text),
    }
}

/// Answers a question. A whole plain line is carried out.
fn answer_question<A: Asked>(
    question: Question,
    answerer: &mut A,
    text: &mut String,
) -> Result<(), AllocError>
    ensures answered { A.stands answerer.old → OnOk result (GrowsBy
        (λ added. AnswersAsked A.answers A.answers_escaped A.asked answerer.old question added answerer.new)
        (string_bytes text.old) (string_bytes text.new)) }
    ensures stands { A.stands answerer.old → A.stands answerer.new }
{
    match question {
        Question::Plain { line } => answer_plain(line.as_slice(), answerer, text),
        _ => answerer.ask(question, text),
    }
}

/// Tells that a word of a question doesn't take what follows it.
fn answer_no_question(word: &str, text: &mut String) -> Result<(), AllocError>
    ensures { OnOk result (string_bytes text.new ≡ string_bytes text.old ++ no_question_reply word.now) }
{
    let mut shown = String::new(*text.allocator());
    escape_word(word, &mut shown)?;
    writeln!(
        text,
        "error: {shown}: what stands behind it isn't what it takes"
    )
}

/// Carries out a whole plain line, without its end, and answers with what would be written of it.
fn answer_plain<A: Answerer>(
    line: &[u8],
    answerer: &mut A,
    text: &mut String,
) -> Result<(), AllocError>
    ensures answered { A.stands answerer.old → OnOk result (GrowsBy
        (λ added. AnswersPlain A.answers answerer.old line.now added answerer.new)
        (string_bytes text.old) (string_bytes text.new)) }
    ensures stands { A.stands answerer.old → A.stands answerer.new }
{
    match parse(*text.allocator(), line)? {
        Line::Blank => write_told("plain ", "", text),
        Line::Command(command) => {
            let mut told = String::with_capacity(*text.allocator(), SHORT_REPLY)?;
            answerer.answer(line, command, &mut told)?;
            write_told("plain ", &told, text)
        }
        Line::NotACommand(wrong) => {
            let told = wrong_text(*text.allocator(), wrong)?;
            write_told("wrong ", &told, text)
        }
    }
}

/// Writes a text as a leaf after a word, in one line.
fn write_told(word: &str, told: &str, text: &mut String) -> Result<(), AllocError>
    ensures { OnOk result (string_bytes text.new
        ≡ string_bytes text.old ++ (word.now ++ (leaf_of told.now ++ codes "\n"))) }
{
    text.push_str(word)?;
    escape_leaf(told.as_bytes(), text)?;
    text.push_str("\n")
}
