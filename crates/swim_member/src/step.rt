//! Steps: what a member does at an event.

ghost use Rattle.std.specs.Prelude.{◌≡◌, ◌≢◌, ◌≤◌, ◌++◌, ◌+◌, ◌∷◌, [], List, All, length, true};
ghost use Rattle.std.specs.List.{list_all};
ghost use Rattle.swim_wire.specs.Spelling.{HasText};
ghost use Rattle.swim_wire.specs.declared.rules.Rules.TheVariants.{Two};
ghost use Rattle.swim_member.specs.declared.state.Phase.TheVariants.{Expelled};
ghost use Rattle.swim_member.specs.Checks.{rules_of};
ghost use Rattle.swim_member.specs.State.{State};
ghost use Rattle.swim_member.specs.Judge.{judge, wanted, MayAct};
ghost use Rattle.swim_member.specs.Judged.{judged_as};
ghost use Rattle.swim_member.specs.Events.{Step, state_of, answer, number_after, actions, Show, no_answer};
ghost use Rattle.swim_member.specs.Fit.{is_fit, AreAll, own_numbers_in};
ghost use Rattle.swim_member.specs.Machinery.Steps.{after, answer_by};

use crate::answer::Answer;
use crate::event::Event;
use crate::judge::Judgement;
use crate::member::Member;
use swim_wire::{Cursor, Datagram};

impl Member {
    /// Shows the members after a cursor.
    #[inline(never)]
    fn show(&self, cursor: Cursor, answer: &mut Answer)
        requires { answer.old ≡ no_answer }
        ensures { answer.new ≡ answer_by self.now (Show cursor ∷ []) }
    {
        answer.page = self.page_after(cursor);
    }

    /// Does what was judged of an event, whose datagram was read into a place. All but a tick is called: inlined, it would
    /// take room and registers from each of them.
    #[inline(always)]
    fn obey(
        &mut self,
        event: &Event,
        judged: Judgement,
        read: &Datagram,
        granted: u64,
        answer: &mut Answer,
    )
        requires nothing { answer.old ≡ no_answer }
        requires judged { judged_as event.now read.now judged ≡ judge self.old event.now }
        requires sound { MayAct self.old (judged_as event.now read.now judged) }
        ensures state { self.new ≡ after self.old (actions self.old event.now granted) }
        ensures answer { answer.new ≡ answer_by self.old (actions self.old event.now granted) }
        ensures fit { list_all (is_fit self.new.settings.me self.new.number) answer.new.outs.items
            ≡ true }
        ensures few { length answer.new.outs.items ≤ self.old.settings.helpers + 2 }
    {
        match judged {
            Judgement::Note(note) => answer.note(note),
            Judgement::Tick => match event {
                Event::Tick { deal } => self.tick(deal, answer),
                // nothing else is judged to be a tick
                _ => unreachable!(),
            },
            Judgement::Datagram { own } => self.receive(read, own, granted, answer),
            Judgement::Join { peer } => self.start_join(peer, answer),
            Judgement::Leave => self.leave(answer),
            Judgement::Members { after } => self.show(after, answer),
        }
    }

    /// Acts on an event as it was judged, with the ceiling that was granted for it, and says in the answer, which must be
    /// empty, what is sent, noted and shown. The member takes the number that the event wants where the ceiling is at
    /// least that, and else keeps its own. It is inlined, as `judge` is.
    #[inline(always)]
    pub fn act(
        &mut self,
        event: &Event,
        judged: Judgement,
        read: &Datagram,
        granted: u64,
        said: &mut Answer,
    )
        requires nothing { said.old ≡ no_answer }
        requires judged { judged_as event.now read.now judged ≡ judge self.old event.now }
        requires sound { MayAct self.old (judged_as event.now read.now judged) }
        requires low { self.old.number ≤ granted }
        // whatever history this member's state is that of, with this event it goes on
        ensures state { (base : State) → (steps : List Step)
            → state_of base steps ≡ self.old
            → state_of base (steps ++ record { event = event.now; granted = granted } ∷ [])
            ≡ self.new }
        ensures answer { (base : State) → (steps : List Step)
            → state_of base steps ≡ self.old
            → answer base steps event.now granted ≡ said.new }
        ensures few { length said.new.outs.items ≤ self.old.settings.helpers + 2 }
        // what is sent can be written
        ensures fit { All (λ out. HasText out.datagram) said.new.outs.items }
        // what is said of oneself is said with the own number as it then is
        ensures own { AreAll self.new.number
            (own_numbers_in self.new.settings.me said.new.outs.items) }
        ensures number { self.new.number
            ≡ number_after (wanted self.old event.now) granted self.old.number }
        // the own number does not fall
        ensures grows { self.old.number ≤ self.new.number }
        ensures settings { self.new.settings ≡ self.old.settings }
        // by rules 2 no event expels
        ensures stays { rules_of self.old.settings ≡ Two
            → self.old.phase ≢ Expelled → self.new.phase ≢ Expelled }
        // a history may begin anew from the new state
        ensures base { state_of self.new [] ≡ self.new }
    {
        self.obey(event, judged, read, granted, said);
        // the type's invariant holds of the new state
        let _ = &self.settings;
    }

    /// Takes an event, with the ceiling that was granted for it, and gives what is sent, noted and
    /// shown. The member takes the number that the event wants where the ceiling is at least that,
    /// and else keeps its own.
    pub fn step(&mut self, event: &Event, granted: u64) -> Answer
        requires { self.old.number ≤ granted }
        // whatever history this member's state is that of, with this event it goes on
        ensures state { (base : State) → (steps : List Step)
            → state_of base steps ≡ self.old
            → state_of base (steps ++ record { event = event.now; granted = granted } ∷ [])
            ≡ self.new }
        ensures answer { (base : State) → (steps : List Step)
            → state_of base steps ≡ self.old
            → answer base steps event.now granted ≡ result }
        ensures few { length result.outs.items ≤ self.old.settings.helpers + 2 }
        // what is sent can be written
        ensures fit { All (λ out. HasText out.datagram) result.outs.items }
        // what is said of oneself is said with the own number as it then is
        ensures own { AreAll self.new.number
            (own_numbers_in self.new.settings.me result.outs.items) }
        ensures number { self.new.number
            ≡ number_after (wanted self.old event.now) granted self.old.number }
        ensures settings { self.new.settings ≡ self.old.settings }
        // by rules 2 no event expels
        ensures stays { rules_of self.old.settings ≡ Two
            → self.old.phase ≢ Expelled → self.new.phase ≢ Expelled }
        // a history may begin anew from the new state
        ensures base { state_of self.new [] ≡ self.new }
    {
        let mut read = Datagram::default();
        let mut answer = Answer::nothing();
        let judged = self.judge(event, &mut read);
        self.act(event, judged, &read, granted, &mut answer);
        answer
    }
}
