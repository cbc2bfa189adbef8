//! The words of script lines.

ghost use Rattle.std.specs.Prelude.{◌≡◌, MatchOption};
ghost use Rattle.rw_machine.specs.declared.event.How.{How};
ghost use Rattle.rw_replay.specs.declared.words.BareWord.{BareWord};
ghost use Rattle.rw_replay.specs.declared.words.NumberedWord.{NumberedWord};
ghost use Rattle.rw_replay.specs.ScriptText.{bare_text, numbered_text, how_text, order_of, order_of_event, bare, numbered};

use crate::command::Command;
use rw_machine::{Event, How};
use rw_wal_tail::Piece;

/// A word that is a whole line.
#[derive(Clone, Copy, Debug, PartialEq, Eq)]
pub(crate) enum BareWord {
    Segment,
    Place,
    Restart,
    Close,
    Kill,
    Settle,
}

impl BareWord {
    /// Returns the word that this text is.
    pub(crate) fn read(text: &[u8]) -> Option<BareWord>
        ensures { MatchOption result ((word : BareWord) → text.now ≡ bare_text word
            → ⊥) (λ word. text.now ≡ bare_text word) }
    {
        let Ok(word) = str::from_utf8(text) else {
            return None;
        };
        match word {
            "segment" => Some(BareWord::Segment),
            "place" => Some(BareWord::Place),
            "restart" => Some(BareWord::Restart),
            "close" => Some(BareWord::Close),
            "kill" => Some(BareWord::Kill),
            "settle" => Some(BareWord::Settle),
            _ => None,
        }
    }

    /// Returns what the word asks for.
    pub(crate) fn command(self) -> Command
        ensures { order_of result ≡ bare self }
    {
        match self {
            BareWord::Segment => Command::Event(Event::Feed(Piece::NextSegment)),
            BareWord::Place => Command::Event(Event::Place),
            BareWord::Restart => Command::Event(Event::Restart),
            BareWord::Close => Command::Event(Event::Close),
            BareWord::Kill => Command::Event(Event::Kill),
            BareWord::Settle => Command::Settle,
        }
    }
}

/// A word that a number follows.
#[derive(Clone, Copy, Debug, PartialEq, Eq)]
pub(crate) enum NumberedWord {
    Flush,
    Take,
    Freeze,
    Send,
    Reply,
    Lost,
    Reshard,
}

impl NumberedWord {
    /// Returns the word that this text is.
    pub(crate) fn read(text: &[u8]) -> Option<NumberedWord>
        ensures { MatchOption result ((word : NumberedWord) → text.now ≡ numbered_text word
            → ⊥) (λ word. text.now ≡ numbered_text word) }
    {
        let Ok(word) = str::from_utf8(text) else {
            return None;
        };
        match word {
            "flush" => Some(NumberedWord::Flush),
            "take" => Some(NumberedWord::Take),
            "freeze" => Some(NumberedWord::Freeze),
            "send" => Some(NumberedWord::Send),
            "reply" => Some(NumberedWord::Reply),
            "lost" => Some(NumberedWord::Lost),
            "reshard" => Some(NumberedWord::Reshard),
            _ => None,
        }
    }

    /// Returns the event of this number that the word asks for.
    pub(crate) fn event(self, number: u64) -> Event
        ensures { order_of_event result ≡ numbered self number }
    {
        match self {
            NumberedWord::Flush => Event::Flush(number),
            NumberedWord::Take => Event::Take(number),
            NumberedWord::Freeze => Event::Freeze(number),
            NumberedWord::Send => Event::Send(number),
            NumberedWord::Reply => Event::Reply(number),
            NumberedWord::Lost => Event::Lost(number),
            NumberedWord::Reshard => Event::Reshard(number),
        }
    }
}

/// Returns the way of answering that this text names.
pub(crate) fn read_how(text: &[u8]) -> Option<How>
    ensures { MatchOption result ((how : How) → text.now ≡ how_text how → ⊥)
        (λ how. text.now ≡ how_text how) }
{
    let Ok(word) = str::from_utf8(text) else {
        return None;
    };
    match word {
        "plain" => Some(How::Plain),
        "busy" => Some(How::Busy),
        "short" => Some(How::OutOfMemory),
        _ => None,
    }
}
