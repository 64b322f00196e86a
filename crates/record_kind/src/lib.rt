// The kinds of records by what they are about, and whose mailbox each needs.
#![tactic(auto)]

ghost use Rattle.std.specs.Prelude.{◌≡◌};
ghost use Rattle.record_kind.specs.Subjects.{subject_of, sought};

use record_read::Kind;

// ---- what a record is about

// The records about mailboxes: `MB DL RN SB RT`.
#[derive(Clone, Copy, PartialEq, Eq)]
pub enum OfMailbox {
    Create,
    Delete,
    Rename,
    Subscribe,
    Grant,
}

// The records about messages: `ME XP FL`.
#[derive(Clone, Copy, PartialEq, Eq)]
pub enum OfMessage {
    Arrive,
    Expunge,
    Reflag,
}

// The records about the session: `SE CE DR`.
#[derive(Clone, Copy, PartialEq, Eq)]
pub enum OfSession {
    Select,
    Ended,
    Drained,
}

// A kind by its subject; `CM` is the one command, and a record of no kind is about nothing.
#[derive(Clone, Copy, PartialEq, Eq)]
pub enum Subject {
    Mailbox(OfMailbox),
    Message(OfMessage),
    Session(OfSession),
    Command,
    Nothing,
}

// The subject of a kind.
pub fn subject_of(kind: Kind) -> Subject
    ensures { result ≡ subject_of kind }
{
    match kind {
        Kind::Create => Subject::Mailbox(OfMailbox::Create),
        Kind::Delete => Subject::Mailbox(OfMailbox::Delete),
        Kind::Rename => Subject::Mailbox(OfMailbox::Rename),
        Kind::Subscribe => Subject::Mailbox(OfMailbox::Subscribe),
        Kind::Grant => Subject::Mailbox(OfMailbox::Grant),
        Kind::Arrive => Subject::Message(OfMessage::Arrive),
        Kind::Expunge => Subject::Message(OfMessage::Expunge),
        Kind::Reflag => Subject::Message(OfMessage::Reflag),
        Kind::Select => Subject::Session(OfSession::Select),
        Kind::Ended => Subject::Session(OfSession::Ended),
        Kind::Command => Subject::Command,
        Kind::Drained => Subject::Session(OfSession::Drained),
        Kind::Unknown => Subject::Nothing,
    }
}

// ---- the mailbox that a record needs

// Its id; the selected mailbox's, where the record is of the client and not of a mailbox.
pub fn sought_id(kind: Kind, id: u64, selected: u16) -> u64
    ensures { result ≡ sought kind id selected }
{
    match kind {
        Kind::Ended | Kind::Command | Kind::Drained => u64::from(selected),
        _ => id,
    }
}
