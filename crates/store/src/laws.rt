//! Laws of runs: nothing runs, each contract is a law.
ghost use Rattle.std.specs.Prelude.{◌≡◌, ℕ, List, true, false};
ghost use Rattle.definitions.specs.declared.rules.Rules.{Rules};
ghost use Rattle.definitions.specs.Accepted.{accepted_on, after, is_accepted, reply_to};
ghost use Rattle.definitions.specs.Header.{Who};
ghost use Rattle.definitions.specs.Moments.{Moment};
ghost use Rattle.definitions.specs.Register.{Command, Entry};
ghost use Rattle.definitions.specs.Reply.{Accepted, Stored};
ghost use Rattle.store.specs.Again.{is_enrolment};

/// An accepted command that is given again, at any moment, leaves the register as it was, and with
/// it stock and outbox.
pub fn a_repeat_leaves_the_register()
    ensures { (r : Rules) (W : Who) (L : List Entry) (c : Command) (t s : Moment)
        → is_accepted (reply_to r W L c t) ≡ true
        → after r W (after r W L (c, t)) (c, s) ≡ after r W L (c, t) }
{}

/// An interchange or an act that was accepted is answered, whenever it is given again after r any
/// commands, by the text that went out for it.
pub fn a_repeat_is_stored()
    ensures { (r : Rules) (W : Who) (L : List Entry) (c : Command) (t : Moment) (text : List ℕ)
        → is_enrolment c ≡ false → reply_to r W L c t ≡ Accepted text
        → (cs : List (Command × Moment)) (s : Moment)
        → reply_to r W (accepted_on r W (after r W L (c, t)) cs) c s ≡ Stored text }
{}
