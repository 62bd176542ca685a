//! The words of replies.
ghost use Rattle.std.specs.Prelude.{◌≡◌, Some};
ghost use Rattle.journal_forms.specs.declared.reply_words.ReplyWord.{ReplyWord};
ghost use Rattle.text_codec.specs.Formats.{first_spelled};
ghost use Rattle.journal_forms.specs.Replies as replies;

/// The replies of journals, one for each word.
#[derive(Clone, Copy, Debug, PartialEq, Eq)]
pub enum ReplyWord {
    Ok,
    Session,
    Names,
    Job,
    Array,
    Jobs,
    State,
    Info,
    Reached,
    Reserved,
    Reservation,
    Reservations,
    Infos,
    ReservationInfos,
    Machine,
    Callback,
    Launch,
    Signal,
    Refused,
}

/// All of them.
pub const REPLY_WORDS: [ReplyWord; 19] = [
    ReplyWord::Ok,
    ReplyWord::Session,
    ReplyWord::Names,
    ReplyWord::Job,
    ReplyWord::Array,
    ReplyWord::Jobs,
    ReplyWord::State,
    ReplyWord::Info,
    ReplyWord::Reached,
    ReplyWord::Reserved,
    ReplyWord::Reservation,
    ReplyWord::Reservations,
    ReplyWord::Infos,
    ReplyWord::ReservationInfos,
    ReplyWord::Machine,
    ReplyWord::Callback,
    ReplyWord::Launch,
    ReplyWord::Signal,
    ReplyWord::Refused,
];

/// How a reply's word is spelled.
pub fn spell_reply_word(word: ReplyWord) -> &'static str
    ensures { result.now ≡ replies.reply_word word }
{
    match word {
        ReplyWord::Ok => "ok",
        ReplyWord::Session => "session",
        ReplyWord::Names => "names",
        ReplyWord::Job => "job",
        ReplyWord::Array => "array",
        ReplyWord::Jobs => "jobs",
        ReplyWord::State => "state",
        ReplyWord::Info => "info",
        ReplyWord::Reached => "reached",
        ReplyWord::Reserved => "reserved",
        ReplyWord::Reservation => "reservation",
        ReplyWord::Reservations => "reservations",
        ReplyWord::Infos => "infos",
        ReplyWord::ReservationInfos => "reservation-infos",
        ReplyWord::Machine => "machine",
        ReplyWord::Callback => "callback",
        ReplyWord::Launch => "launch",
        ReplyWord::Signal => "signal",
        ReplyWord::Refused => "refused",
    }
}

/// The first reply of the table that is spelled so.
fn first_reply_word(word: &[u8]) -> Option<ReplyWord>
    ensures { result ≡ first_spelled replies.reply_word REPLY_WORDS word.now }
{
    REPLY_WORDS
        .iter()
        .copied()
        .find(|reply| spell_reply_word(*reply).as_bytes() == word)
}

/// The reply whose word is spelled so. Each reply has a word, and no two share one.
pub fn reply_word_of(word: &[u8]) -> Option<ReplyWord>
    ensures first { result ≡ first_spelled replies.reply_word REPLY_WORDS word.now }
    ensures only { (reply : ReplyWord) → word.now ≡ replies.reply_word reply → result ≡ Some reply }
{
    first_reply_word(word)
}
