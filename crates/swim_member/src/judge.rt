//! Judging: what a member makes of an event before it acts. Bytes are decoded here and nowhere else, and what an event
//! wants is found here, so that it can be saved before the member acts.

ghost use Rattle.std.specs.Prelude.{◌≡◌, ◌≤◌, IfSome, IfOk, IfErr};
ghost use Rattle.swim_wire.specs.declared.datagram.Datagram.{Datagram as Datagrams};
ghost use Rattle.swim_wire.specs.declared.update.TheConstants.{NUMBER_MAX};
ghost use Rattle.swim_wire.specs.Decoding.{decoded};
ghost use Rattle.swim_member.specs.declared.event.Event.{Event as Events};
ghost use Rattle.swim_member.specs.Judge.{refusal_of, judge_bytes, judge_stopped, judge, number_wanted, wanted, MayAct, HasDeal};
ghost use Rattle.swim_member.specs.Judged.{judged_as};
ghost use Rattle.swim_member.specs.Judged as judged;

use crate::event::Event;
use crate::member::Member;
use crate::note::Note;
use crate::own_number::OwnNumber;
use crate::state::Phase;
use crate::tick::LAST_TIME;
use swim_wire::{Cursor, Datagram, Endpoint, decode_into};

/// What a member makes of an event before it acts on it. What is large stays where it is: the deal of a tick in the event,
/// and a datagram in the place that was lent to read it into.
#[derive(Clone, Copy)]
pub enum Judgement {
    /// Nothing is done but to take this note.
    Note(Note),
    /// Time goes on.
    Tick,
    /// The datagram that was read is accepted.
    Datagram {
        /// What its updates ask of the own number.
        own: OwnNumber,
    },
    /// Another member is to be asked for all that it knows.
    Join {
        /// Whom to ask.
        peer: Endpoint,
    },
    /// The group is to be left.
    Leave,
    /// Members are to be shown.
    Members {
        /// The cursor after which they begin.
        after: Cursor,
    },
}

impl Judgement {
    /// The number that the event wants for the member, or none: at most `NUMBER_MAX`.
    pub fn wanted(&self) -> Option<u64>
        // whatever event was so judged, and whatever was read
        ensures { (event : Events) → (read : Datagrams)
            → number_wanted (judged_as event read self.now) ≡ result }
    {
        match self {
            Judgement::Datagram { own } => own.wanted(),
            _ => None,
        }
    }
}

impl Member {
    /// What refuses a datagram that came from here, if anything does.
    fn refusal_of(&self, from: Endpoint, datagram: &Datagram) -> Option<Note>
        ensures { result ≡ refusal_of self.now.settings from datagram.now }
    {
        if datagram.group != self.settings.group {
            Some(Note::OtherGroup)
        } else if datagram.version != self.settings.rules_of() {
            Some(Note::OtherVersion)
        } else if datagram.sender != from {
            Some(Note::NotSender)
        } else if datagram.sender == self.settings.me {
            Some(Note::FromSelf)
        } else {
            None
        }
    }

    /// Judges an event of a member that takes no part: it shows its members, and notes everything else.
    fn judge_stopped(event: &Event) -> Judgement
        ensures { (read : Datagrams)
            → judged_as event.now read result ≡ judge_stopped event.now }
    {
        match event {
            Event::Members { after } => Judgement::Members { after: *after },
            _ => Judgement::Note(Note::Stopped),
        }
    }

    /// Judges received bytes, and reads the datagram that they spell into a place. Gives what it asks of the own number, or
    /// why it is not accepted. It is called: inlined, it would take room and registers from each tick.
    #[inline(never)]
    fn read(&self, from: Endpoint, bytes: &[u8], place: &mut Datagram) -> Result<OwnNumber, Note>
        ensures accepted { IfOk result (λ own. judge_bytes self.now from (decoded bytes.now)
            ≡ judged.Datagram place.new own) }
        ensures refused { IfErr result (λ note. judge_bytes self.now from (decoded bytes.now)
            ≡ judged.Note note) }
        ensures sound { IfOk result (λ own. MayAct self.now (judged.Datagram place.new own)) }
    {
        if let Err(fault) = decode_into(bytes, place) {
            return Err(Note::BadDatagram(fault));
        }
        if let Some(note) = self.refusal_of(from, place) {
            return Err(note);
        }
        Ok(self.own_number_by(&place.updates))
    }

    /// Judges an event before the member acts on it: what it wants may be saved first. A datagram is read into the place
    /// that is lent, where the act finds it. It is inlined, since most ticks do less than a call costs.
    #[inline(always)]
    pub fn judge(&self, event: &Event, read: &mut Datagram) -> Judgement
        ensures value { judged_as event.now read.new result ≡ judge self.now event.now }
        ensures sound { MayAct self.now (judged_as event.now read.new result) }
        ensures bound { IfSome (wanted self.now event.now) (λ n. n ≤ NUMBER_MAX) }
        ensures deal { HasDeal event.now }
    {
        if let Event::Tick { deal } = event {
            deal.numbers_are_dealt();
        }
        if self.phase != Phase::Running {
            return Member::judge_stopped(event);
        }
        match event {
            Event::Tick { deal: _ } if self.time == LAST_TIME => Judgement::Note(Note::TimeOver),
            Event::Tick { deal: _ } => Judgement::Tick,
            Event::Datagram { from, bytes } => match self.read(*from, bytes, read) {
                Ok(own) => Judgement::Datagram { own },
                Err(note) => Judgement::Note(note),
            },
            Event::ReceiveFailed => Judgement::Note(Note::ReceiveFailed),
            Event::SendFailed { count } => Judgement::Note(Note::SendFailed(*count)),
            Event::Join { peer } => Judgement::Join { peer: *peer },
            Event::Leave => Judgement::Leave,
            Event::Members { after } => Judgement::Members { after: *after },
        }
    }

    /// The number that an event wants for this member, or none. The ceiling that is granted for the
    /// step decides whether the member gets it.
    pub fn plan(&self, event: &Event) -> Option<u64>
        ensures value { result ≡ wanted self.now event.now }
        ensures bound { IfSome result (λ n. n ≤ NUMBER_MAX) }
    {
        self.judge(event, &mut Datagram::default()).wanted()
    }
}
