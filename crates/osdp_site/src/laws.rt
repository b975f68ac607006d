//! What the calls of a site come to. The functions do nothing: their contracts are laws.

ghost use Rattle.std.specs.Prelude.{ℕ, List};
ghost use Rattle.std.specs.List.{All};
ghost use Rattle.osdp_bus.specs.Buses.{BusState};
ghost use Rattle.osdp_controller.specs.declared.report.Report.{Report};
ghost use Rattle.osdp_site.specs.Laws.{IsFirstBegin, IsState, IsTaken, Move, NoneIsDue, WaitsForOthers, OnlineBetween, SubmittedOnce, WaitsForThePause, after_moves};
ghost use Rattle.osdp_msg.specs.declared.command.Command.{Command};
ghost use Rattle.osdp_site.specs.Beginning.{AllBeginAnew, BeginsAnew};
ghost use Rattle.osdp_site.specs.Latest.{SaysOfOne, SessionsAreGivenTheLatest, WantsTheLatest};
ghost use Rattle.osdp_site.specs.Places.{PlaceState, new_place};
ghost use Rattle.osdp_site.specs.declared.subject.Subject.{Subject};
ghost use Rattle.osdp_site.specs.Sites.{Both, SiteState};

/// Of what is wanted as a session opens each state is submitted once at most, in the order in which it was wanted, and the rest is still due, however often the panel
/// refuses some of it. Where the site says that it is done, all of it was submitted. Nothing else is called of the entry meanwhile.
pub fn states_are_submitted_once()
    ensures { (entry now : ℕ) (bs : List BusState) (p : PlaceState) → SubmittedOnce entry now bs p }
{}

/// Where an entry acts, the panel takes the first of what is due, up to one that it refuses, and nothing else; to a device that is offline nothing is submitted.
pub fn panels_take_what_is_wanted()
    ensures { (entry : ℕ) (b : BusState) (p : PlaceState) → IsTaken entry b p }
{}

/// Whatever is called, all that a site keeps to give again are states: no order for a time is among them. What a program submits to the panel by itself isn't spoken of.
pub fn orders_are_not_repeated()
    ensures { (entry pause room bytes now : ℕ) (ms : List Move) → All IsState (after_moves entry pause ms (new_place room bytes now)).wanted }
{}

/// Where the panel has the room that its site was told, what an entry leaves when it acts waits for room that other commands take. Each state that is wanted has
/// no more bytes than that room.
pub fn states_wait_for_others()
    ensures { (entry pause room bytes now : ℕ) (ms : List Move) (b : BusState) → WaitsForOthers entry bytes b (after_moves entry pause ms (new_place room bytes now)) }
{}

/// A device is online exactly between an opening and the end of its session, since the moment of the report.
pub fn devices_are_online_between()
    ensures { (pause : ℕ) (before after : List (Report × ℕ)) (r : Report) (now : ℕ) (p : PlaceState) → OnlineBetween pause before after r now p }
{}

/// After the end of a session the next is never due before its pause, and is due from then on until it has begun.
pub fn sessions_wait_for_the_pause()
    ensures { (pause ended : ℕ) (r : Report) (after : List (Report × ℕ)) (p : PlaceState) → WaitsForThePause pause r ended after p }
{}

/// When all entries have acted, no session is due any more. Which of them have begun says law `sessions_take_back_what_waits`.
pub fn no_session_stays_due()
    ensures { (now : ℕ) (x : Both) → NoneIsDue now x }
{}

/// The deadline is the earliest moment at which some session is due.
pub fn deadlines_are_the_first_begin()
    ensures { (now : ℕ) (s : SiteState) → IsFirstBegin now s }
{}

/// A session that begins where none stands takes back all orders of its device that wait. Nothing is told of them. Where a session stands nothing is taken back, and of other
/// devices nothing ever. Where none is due, an entry's states are only given.
///
/// So it is in each call of a site, whatever its other entries do.
pub fn sessions_take_back_what_waits()
    ensures begins { (entry now : ℕ) (b : BusState) → BeginsAnew entry now b }
    ensures all { (now : ℕ) (x : Both) → AllBeginAnew now x }
{}

/// What is wanted is the latest of each thing that was said and not refused. So it is whatever is called, of each output, LED, buzzer and text, in the order in which it was
/// said: nothing that was accepted is forgotten.
pub fn the_latest_is_wanted()
    ensures { WantsTheLatest }
{}

/// From an opening to the next, the panel is given no state more often than it was wanted then or accepted since. These are what was wanted as the session opened and what
/// was said since, except what was replaced before it went. The latest of these, and of what is due, are what is wanted, and all of that was given where the site says that
/// it is done.
pub fn sessions_are_given_the_latest()
    ensures { SessionsAreGivenTheLatest }
{}

/// States are of the same where the kind and all numbers are equal.
pub fn states_are_of_one_thing()
    ensures { (s : Subject) (c : Command) → SaysOfOne s c }
{}
