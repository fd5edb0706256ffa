//! Laws of requests: nothing runs, a contract is the law.
ghost use Rattle.std.specs.Prelude.{◌≡◌, ◌≢◌, ◌++◌, ℕ, List, Option, Some, None, Ok, true, false, bytes_eq, codes, option_map};
ghost use Rattle.definitions.specs.Rules.{Today};
ghost use Rattle.httparse.specs.Grammar.{RequestHead};
ghost use Rattle.definitions.specs.Header.{Who};
ghost use Rattle.definitions.specs.Moments.{Moment};
ghost use Rattle.definitions.specs.Register.{Command, Entry};
ghost use Rattle.definitions.specs.Response.{asked, bare, Nowhere, Post, Response, ToExchange, resp};
ghost use Rattle.definitions.specs.declared.sheet_kind.SheetKind.{SheetKind};
ghost use Rattle.store.specs.Standing.{IsUnchanged};
ghost use Rattle.intake.specs.Reaching.{may_reach};
ghost use Rattle.request_guard.specs.Askers.{may_send};
ghost use Rattle.intake.specs.Calls.{ToDeed, ToTriedDeed, ToTriedExchange, call_of, call_resp};
ghost use Rattle.intake.specs.Fields.{head_of};
ghost use Rattle.intake.specs.Routes.{route_of};
ghost use Rattle.intake.specs.Lines.{sender_in};
ghost use Rattle.intake.specs.Targets.{asked_with, interchange_with, target_of};
ghost use Rattle.intake.specs.Admitting.{access_by, answer_by, answer_for, answer_of, command_by, command_for, command_in, is_health_by, of_partners, without_health};
ghost use Rattle.request_guard.specs.declared.askers.Asker.{Asker};
ghost use Rattle.peers.specs.declared.entrances.Door.{Door};
ghost use Rattle.peers.specs.declared.entrances.Door.TheVariants.{First, Second};
ghost use Rattle.intake.specs.Serving.{BeginsWith, IsExchange};
ghost use Rattle.intake.specs.declared.audience.Access.{Access};
ghost use Rattle.intake.specs.declared.served.RequestLine.{RequestLine};
ghost use Rattle.intake.specs.declared.audience.Audience.{Audience};
ghost use Rattle.intake.specs.declared.audience.Audience.TheVariants.{Partners, Testers, Clerks};

use store::Keeper;

/// An input asks for one thing: no two readings of its beginning differ in what they ask for, and
/// so in the response or in the interchange that is handed in.
pub fn an_input_asks_for_one_thing()
    ensures { (input : List ℕ) (g h : Option RequestHead) (r s : List ℕ) → BeginsWith input g r
        → BeginsWith input h s
        → asked (option_map head_of g) r ≡ asked (option_map head_of h) s }
{}

/// Whoever is served, an input has one answer: no two readings of its beginning differ in the
/// command that is submitted, nor in the response.
pub fn an_input_has_one_answer()
    ensures commands { (audience : Audience) (input : List ℕ) (g h : Option RequestHead)
        (r s : List ℕ)
        → BeginsWith input g r → BeginsWith input h s
        → command_in audience g r ≡ command_in audience h s }
    ensures answers { (audience : Audience) (W : Who) (L : List Entry) (t : Moment) (input : List ℕ)
        (g h : Option RequestHead) (r s : List ℕ) → BeginsWith input g r → BeginsWith input h s
        → answer_of audience W L g r t ≡ answer_of audience W L h s t }
{}

/// The routes that are always served stay what they are where clerks are served too: a path that
/// leads to one of them calls for nothing, and a request to it is answered, and submits a command,
/// as before.
pub fn the_routes_stay()
    ensures calls { (path : List ℕ) → route_of path ≢ Nowhere → call_of path ≡ None }
    ensures commands { (h : RequestHead) (rest : List ℕ) → route_of h.target ≢ Nowhere
        → command_in Clerks (Some h) rest ≡ command_in Partners (Some h) rest }
    ensures answers { (h : RequestHead) (rest : List ℕ) → route_of h.target ≢ Nowhere
        → (W : Who) (L : List Entry) (t : Moment)
        → answer_of Clerks W L (Some h) rest t ≡ answer_of Partners W L (Some h) rest t }
{}

/// What is tried out, after `/try`, is answered as the same deed or interchange would be now, and
/// isn't done: a request whose path begins so submits nothing, whoever is served, and whoever asks.
pub fn what_is_tried_out_is_not_done()
    ensures paths { (kind : SheetKind) (who ticket number path : List ℕ)
        → call_of (codes "/" ++ path) ≡ Some (ToDeed kind who ticket number)
        → call_of (codes "/try/" ++ path) ≡ Some (ToTriedDeed kind who ticket number) }
    ensures deeds { (W : Who) (L : List Entry) (t : Moment) (kind : SheetKind)
        (who ticket number body : List ℕ)
        → call_resp W L Post (ToTriedDeed kind who ticket number) body t
        ≡ call_resp W L Post (ToDeed kind who ticket number) body t }
    ensures exchanges { (W : Who) (L : List Entry) (t : Moment) (body : List ℕ)
        → call_resp W L Post ToTriedExchange body t ≡ resp Today W L Post ToExchange body t }
    ensures commands { (asker : Asker) (audience : Audience) (h : RequestHead)
        (rest path : List ℕ) → h.target ≡ codes "/try/" ++ path
        → command_for asker audience h rest ≡ None }
{}

/// Where partners may try an interchange out, any other request is answered, and submits a command,
/// as where they may not.
pub fn testers_are_served_as_partners()
    ensures commands { (h : RequestHead) (rest : List ℕ)
        → bytes_eq h.target (codes "/try/x12") ≡ false
        → command_in Testers (Some h) rest ≡ command_in Partners (Some h) rest }
    ensures answers { (h : RequestHead) (rest : List ℕ)
        → bytes_eq h.target (codes "/try/x12") ≡ false → (W : Who) (L : List Entry) (t : Moment)
        → answer_of Testers W L (Some h) rest t ≡ answer_of Partners W L (Some h) rest t }
{}

/// Where what stands in front is to say for whom a request is asked, one that it says nothing of,
/// or that asks by its path for what another depositor has, is 403, whatever it is, and submits
/// nothing; an interchange that is submitted was sent by no other depositor; and one that another
/// sent is 403, and isn't submitted, whether it is handed in or tried out.
pub fn others_are_turned_away()
    ensures commands { (asker : Asker) (audience : Audience) (h : RequestHead) (rest : List ℕ)
        → may_reach asker (target_of audience h.target) ≡ false
        → command_for asker audience h rest ≡ None }
    ensures answers { (asker : Asker) (audience : Audience) (h : RequestHead) (rest : List ℕ)
        → may_reach asker (target_of audience h.target) ≡ false
        → (W : Who) (L : List Entry) (t : Moment)
        → answer_for asker audience W L h rest t ≡ bare 403 }
    ensures senders { (asker : Asker) (audience : Audience) (h : RequestHead) (rest : List ℕ)
        (c : Command) → command_for asker audience h rest ≡ Some c
        → may_send asker (sender_in (Some c)) ≡ true }
    ensures foreign { (asker : Asker) (audience : Audience) (h : RequestHead) (rest body : List ℕ)
        → asked_with (head_of h) (target_of audience h.target) rest ≡ Ok body
        → may_send asker (sender_in (interchange_with (head_of h).method
        (target_of audience h.target) body)) ≡ false
        → (W : Who) (L : List Entry) (t : Moment)
        → (command_for asker audience h rest ≡ None)
        × (answer_for asker audience W L h rest t ≡ bare 403) }
{}

/// A second door is the clerks': by it clerks are served, for whom nobody in front says who asks.
/// It changes nothing of the first, and turns away whatever the first does by its head; and where
/// partners alone are served, nobody else is by either.
pub fn a_second_door_is_the_clerks()
    ensures first { (access : Access) → access_by access First ≡ access }
    ensures clerks { (access : Access) → access.audience ≢ Partners
        → let by = access_by access Second in (by.audience ≡ Clerks) × (by.from ≡ None) }
    ensures guarded { (access : Access) (door : Door)
        → (access_by access door).doors ≡ access.doors }
    ensures partners { (door : Door) → access_by of_partners door ≡ of_partners }
{}

/// Where an access tells no health, no request is for it; and telling it changes nothing of any
/// other request, which is answered, and submits a command, as where it isn't told.
pub fn health_changes_no_other_answer()
    ensures none { (access : Access) (head : Option RequestHead) → access.tells_health ≡ false
        → is_health_by access head ≡ false }
    ensures commands { (access : Access) (head : Option RequestHead) (rest : List ℕ)
        → is_health_by access head ≡ false
        → command_by access head rest ≡ command_by (without_health access) head rest }
    ensures answers { (access : Access) (head : Option RequestHead) (rest : List ℕ)
        → is_health_by access head ≡ false → (W : Who) (L : List Entry) (t : Moment)
        → answer_by access W L head rest t ≡ answer_by (without_health access) W L head rest t }
{}

/// A request for the health of the book submits nothing, and however it is answered, the book is as
/// it was.
pub fn a_look_at_the_health_changes_nothing<K: Keeper>(before: &K, after: &K)
    ensures commands { (access : Access) (head : Option RequestHead) (rest : List ℕ)
        → is_health_by access head ≡ true → command_by access head rest ≡ None }
    ensures book { (access : Access) (known : Option (List ℕ)) (t : Moment) (r : Response)
        (line : Option RequestLine) (sender : Option Who)
        → IsExchange access (K.standing before.now) (K.standing after.now) known t r line sender
        true → IsUnchanged (K.standing before.now) (K.standing after.now) }
{}
