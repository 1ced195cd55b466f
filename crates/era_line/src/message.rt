//! The messages that a target takes.

ghost use Rattle.std.specs.Prelude.{◌≡◌, ◌≢◌, IfSome, IfNone};
ghost use Rattle.era_line.specs.Messages.{word_of_message};
ghost use Rattle.era_line.specs.declared.message.Message.{Message as message_of_text};

/// What a message asks for.
#[derive(Clone, Copy, Debug, PartialEq, Eq)]
pub enum Message {
    /// The next era.
    Checkpoint,
    /// A snapshot of the metadata.
    TakeSnap,
    /// That the snapshot is dropped.
    DropSnap,
}

/// The message whose word a text is. It takes no memory.
pub fn read_message(text: &str) -> Option<Message>
    ensures some { IfSome result (λ message. text.now ≡ word_of_message message) }
    ensures none { IfNone result
        ((message : message_of_text) → text.now ≢ word_of_message message) }
{
    match text {
        "checkpoint" => Some(Message::Checkpoint),
        "take_metadata_snap" => Some(Message::TakeSnap),
        "drop_metadata_snap" => Some(Message::DropSnap),
        _ => None,
    }
}

/// The word of a message.
pub fn message_text(message: Message) -> &'static str
    ensures { result.now ≡ word_of_message message }
{
    match message {
        Message::Checkpoint => "checkpoint",
        Message::TakeSnap => "take_metadata_snap",
        Message::DropSnap => "drop_metadata_snap",
    }
}
