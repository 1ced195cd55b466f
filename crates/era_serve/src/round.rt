//! One round: its commands are served in order, and their replies are given.

ghost use Rattle.std.specs.Prelude.{◌≡◌, [], ◌∷◌, false, OnErr, OnOk, length};
ghost use Rattle.era_line.specs.TextBuffer.{IsEmpty};
ghost use Rattle.era_serve.specs.Memories.{AreMemoriesFor, IsMemoryFor};
ghost use Rattle.era_serve.specs.Replying.{HasAnswered, HasReplied, HasRunNothing, MayServe, told_at};

use crate::memory::{CommandMemory, make_memories};
use crate::replies::{Replies, flush_unless_lost, give_unless_lost};
use era_base::{Disk, Memory, Sink};
use era_model::Command;
use era_session::Session;
use era_session::laws::served_commands_leave_their_trail;
use std::alloc::Global;

/// Serves a command, and gives its reply unless the sink has failed.
fn serve_command<K: Sink, D: Disk>(
    alloc: Global,
    session: &mut Session<D>,
    memory: CommandMemory,
    command: &Command,
    replies: &mut Replies,
    sink: &mut K,
)
    requires may { MayServe D.Disk session.old (command.now ∷ []) }
    requires memory { IsMemoryFor (length session.old.stripes.items) command.now.task memory }
    ensures { HasReplied D.Disk (command.now ∷ []) session.old session.new
        (told_at K.Sink replies.old sink.old) (told_at K.Sink replies.new sink.new) }
{
    let CommandMemory { room, trail } = memory;
    let answer = session.serve(alloc, room, command);
    served_commands_leave_their_trail::<D>();
    replies.note(&answer);
    give_unless_lost(replies, session, command, trail, sink);
}

/// Serves commands one after the other, also where the sink fails at a reply.
fn serve_commands<K: Sink, D: Disk>(
    alloc: Global,
    session: &mut Session<D>,
    commands: &[Command],
    mut memories: Vec<CommandMemory>,
    replies: &mut Replies,
    sink: &mut K,
)
    requires may { MayServe D.Disk session.old commands.now }
    requires memories { AreMemoriesFor (length session.old.stripes.items) commands.now
        memories.items }
    ensures { HasReplied D.Disk commands.now session.old session.new
        (told_at K.Sink replies.old sink.old) (told_at K.Sink replies.new sink.new) }
{
    for command in commands {
        let Some(memory) = memories.pop() else {
            unreachable!()
        };
        serve_command(alloc, session, memory, command, replies, sink);
    }
}

/// Runs a round, and gives its replies. The memory of all of its commands is taken before the first one is served: where it
/// is refused nothing is run.
pub fn answer_round<K: Sink, D: Disk>(
    alloc: Global,
    session: &mut Session<D>,
    commands: &[Command],
    replies: &mut Replies,
    sink: &mut K,
) -> Result<(), Memory>
    requires may { MayServe D.Disk session.old commands.now }
    requires text { IsEmpty replies.old.text }
    requires sink { replies.old.lost ≡ false }
    ensures ok { OnOk result (HasAnswered D.Disk commands.now session.old session.new
        (told_at K.Sink replies.old sink.old) (told_at K.Sink replies.new sink.new)) }
    ensures err { OnErr result (HasRunNothing session.old session.new
        (told_at K.Sink replies.old sink.old) (told_at K.Sink replies.new sink.new)) }
{
    let memories = make_memories(alloc, commands, session.stripes.len() as u32)?;
    serve_commands(alloc, session, commands, memories, replies, sink);
    flush_unless_lost(replies, sink);
    Ok(())
}
