//! The replies of a round, which are given while its commands are served.

ghost use Rattle.std.specs.Prelude.{◌≡◌, ◌≤◌, [], length, vec_capacity};
ghost use Rattle.era_base.specs.Faults.{HasCause};
ghost use Rattle.era_line.specs.TextBuffer.{Adds};
ghost use Rattle.era_model.specs.Transcript.{reply_line};
ghost use Rattle.era_serve.specs.Replying.{HasFlushed, HasGiven, told_at};
ghost use Rattle.era_session.specs.Sessions.{SessionFits};
ghost use Rattle.era_session.specs.Trails.{session_trail, with_places};

use crate::answers::{is_fault, is_memory};
use crate::stop::{Stop, Stopped};
use era_base::{Disk, Failed, Sink};
use era_line::TextBuffer;
use era_model::{Answer, Command, Entry};
use era_reply::give_reply;
use era_session::Session;

/// The text of the replies as far as it isn't given, whether the sink has failed, and what the commands were answered.
/// Once the sink has failed it isn't asked any more.
#[derive(Clone, Copy)]
pub struct Replies {
    pub text: TextBuffer,
    pub lost: bool,
    pub some_fault: bool,
    pub some_memory: bool,
}

impl Replies {
    ghost use Rattle.std.specs.Prelude.{false};
    ghost use Rattle.era_line.specs.TextBuffer.{IsEmpty};
    ghost use Rattle.era_serve.specs.Replying.{HasNoted};
    ghost use Rattle.era_serve.specs.Stops.{stopped_with};

    /// No replies.
    pub fn new() -> Replies
        ensures text { IsEmpty result.text }
        ensures sink { result.lost ≡ false }
        ensures fault { result.some_fault ≡ false }
        ensures memory { result.some_memory ≡ false }
    {
        Replies {
            text: TextBuffer::new(),
            lost: false,
            some_fault: false,
            some_memory: false,
        }
    }

    /// Keeps in mind what a command was answered.
    pub fn note(&mut self, answer: &Answer)
        ensures { HasNoted answer.now self.old self.new }
    {
        self.some_fault = self.some_fault || is_fault(answer);
        self.some_memory = self.some_memory || is_memory(answer);
    }

    /// What is told where serving ends so.
    pub fn stopped(&self, stop: Stop) -> Stopped
        ensures { result ≡ stopped_with self.now stop }
    {
        Stopped {
            stop,
            some_fault: self.some_fault,
            some_memory: self.some_memory,
        }
    }
}

/// Gives the reply to the command that a session served last. It takes no memory.
fn give_own<'a, K: Sink, D: Disk>(
    session: &'a Session<D>,
    command: &Command,
    trail: Vec<&'a Entry>,
    text: &mut TextBuffer,
    sink: &mut K,
) -> Result<(), Failed>
    requires fits { SessionFits D.Disk session.now }
    requires none { trail.items ≡ [] }
    requires room { length (session_trail session.now command.now.task) ≤ vec_capacity trail }
    ensures added { Adds (K.given sink.old) text.old (K.given sink.new) text.new
        (reply_line command.now.line
        (with_places (session_trail session.now command.now.task))) result }
    ensures cause { HasCause (K.faults sink.old) (K.faults sink.new) result }
{
    let own = session.trail(&command.task, trail);
    give_reply(text, sink, command.line, own.as_slice())
}

/// Gives the reply to the command that a session served last, unless the sink has failed.
pub fn give_unless_lost<'a, K: Sink, D: Disk>(
    replies: &mut Replies,
    session: &'a Session<D>,
    command: &Command,
    trail: Vec<&'a Entry>,
    sink: &mut K,
)
    requires fits { SessionFits D.Disk session.now }
    requires none { trail.items ≡ [] }
    requires room { length (session_trail session.now command.now.task) ≤ vec_capacity trail }
    ensures { HasGiven
        (reply_line command.now.line
        (with_places (session_trail session.now command.now.task)))
        (told_at K.Sink replies.old sink.old) (told_at K.Sink replies.new sink.new) }
{
    if replies.lost {
        return;
    }
    let given = give_own(session, command, trail, &mut replies.text, sink);
    replies.lost = given.is_err();
}

/// Gives what is left of a round's text, unless the sink has failed.
pub fn flush_unless_lost<K: Sink>(replies: &mut Replies, sink: &mut K)
    ensures { HasFlushed (told_at K.Sink replies.old sink.old)
        (told_at K.Sink replies.new sink.new) }
{
    if replies.lost {
        return;
    }
    replies.lost = replies.text.flush(sink).is_err();
}
