//! Answers as they are sent.
ghost use Rattle.std.specs.Prelude.{◌≡◌, IfErr, IfOk};
ghost use Rattle.ifmap_io.specs.Causes.{HasCause};
ghost use Rattle.ifmap_io.specs.Written.{WritesAll};
ghost use Rattle.ifmap_core.specs.ifmap_machine.Step.{refusal};
ghost use Rattle.ifmap_server.specs.Output.{answer_text, unreadable_text};

use crate::errors::ReplayError;
use crate::sending::{send, write};
use ifmap_core::{Answer, Reply, write_reply};
use ifmap_elem::{Many, Text};
use ifmap_ident::Code;
use ifmap_io::Sink;
use std::alloc::{AllocError as NoMemory, Global};
use std::marker::Model;

/// The text of an answer: its first line, and the reply where there is one, which stays where it was
/// printed. Contracts see all of it.
#[derive(Drop)]
pub struct AnswerText {
    line: String,
    reply: Many<u8>,
}

impl Model for AnswerText {
    ghost use Rattle.std.specs.Prelude.{ℕ, ◌++◌, List, string_bytes};

    ghost Value = { List ℕ };

    ghost view = { λ text. string_bytes text.line ++ text.reply };
}

impl AnswerText {
    /// What is written for a body that is no envelope.
    pub fn unreadable_answer(alloc: Global) -> Result<AnswerText, NoMemory>
        ensures { IfOk result (λ text. text ≡ unreadable_text) }
    {
        AnswerText::of_line(alloc, "unreadable\n")
    }

    /// The answer to a request with a defect: its code, with the code's name as the note.
    pub fn refusal(alloc: Global, code: Code) -> Result<AnswerText, NoMemory>
        ensures { IfOk result (λ text. text ≡ answer_text (refusal code)) }
    {
        let note = Text::from_str(alloc, code.name())?;
        AnswerText::of_reply(alloc, &Reply::Error { code, note })
    }

    /// What is written for an answer of the machine.
    pub fn new(alloc: Global, answer: &Answer) -> Result<AnswerText, NoMemory>
        ensures { IfOk result (λ text. text ≡ answer_text answer.now) }
    {
        match answer {
            Answer::Reply(reply) => AnswerText::of_reply(alloc, reply),
            Answer::Held => AnswerText::of_line(alloc, "held\n"),
            Answer::Heard => AnswerText::of_line(alloc, ""),
        }
    }

    // `=`, the length of the reply, a newline and the reply.
    fn of_reply(alloc: Global, reply: &Reply) -> Result<AnswerText, NoMemory>
        ensures { IfOk result (λ text. text ≡ answer_text (Answer.Reply reply.now)) }
    {
        let reply = write_reply(alloc, reply)?;
        let length = reply.len();
        let line = format!(in alloc; "={length}\n")?;
        Ok(AnswerText { line, reply })
    }

    // A line and no reply.
    fn of_line(alloc: Global, line: &str) -> Result<AnswerText, NoMemory>
        ensures { IfOk result (λ text. text ≡ line.now) }
    {
        let line = String::from_str(alloc, line)?;
        Ok(AnswerText {
            line,
            reply: Many(Vec::new(alloc)),
        })
    }

    /// Writes the text, and hands it on.
    pub fn send<K: Sink>(&self, sink: &mut K) -> Result<(), ReplayError>
        ensures bytes { WritesAll (K.held sink.old) (K.held sink.new) result self.now }
        ensures cause { IfErr result (λ e. e ≡ ReplayError.WriteFault) }
        ensures fault { HasCause (K.faults sink.old) (K.faults sink.new) result }
    {
        write(sink, self.line.as_bytes())?;
        send(sink, self.reply.as_slice())
    }
}
