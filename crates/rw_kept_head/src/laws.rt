//! Laws of a head that is kept in a journal. Each function does nothing: its contract is the law.

ghost use Rattle.std.specs.Prelude.{◌≡◌, ℕ, suc, ℤ, List, [], Option};
ghost use Rattle.std.specs.List.{AllByRecursion};
ghost use Rattle.rw_types.specs.Beginnings.{Begins};
ghost use Rattle.rw_types.specs.Labels.{Labels};
ghost use Rattle.rw_types.specs.declared.entry.Entry.{Entry};
ghost use Rattle.rw_wal_format.specs.Pieces.{page_size};
ghost use Rattle.rw_head.specs.Head.{State, answer};
ghost use Rattle.rw_head.specs.Store.{Store, list_of};
ghost use Rattle.rw_head.specs.Verdicts.{LabelLimits};
ghost use Rattle.rw_kept_log.specs.Journal.{Segments};
ghost use Rattle.rw_kept_log.specs.Logs.{entries_of, IsWholeText};
ghost use Rattle.rw_kept_log.specs.Additions.{samples_of_labels};
ghost use Rattle.rw_kept_head.specs.Admitted.{MayHold, IsAdmitted};
ghost use Rattle.rw_kept_log.specs.Definitions.{IsDefinedOnce};
ghost use Rattle.rw_kept_head.specs.Lives.{MayBecome};
ghost use Rattle.rw_kept_head.specs.Opening.{HasSameEntries};
ghost use Rattle.rw_kept_head.specs.Past.{AnswerAlike, CanJudgeBody, IsHeadWithout};
ghost use Rattle.rw_head.specs.Order.{Point};
ghost use Rattle.rw_write_request.specs.Read.{read};
ghost use Rattle.rw_kept_head.specs.Kept.{SaysWhat, LiesBetween, IsLeft, HasNoChance, StaysDefinedOnce};

use rw_head::what_can_be_judged;
use rw_kept_log::Journal;
use rw_kept_log::append_laws::a_beginning_is_defined_once;
use rw_kept_log::laws::segments_add_up;

/// Law: as a log goes on, the samples of each label set go on.
pub fn samples_go_on()
    ensures { (es fs : List Entry) (l : Labels) → Begins es fs
        → Begins (samples_of_labels es l) (samples_of_labels fs l) }
{}

/// Law: what a crash leaves while a request is answered is between what was held and what was about
/// to be held: of each label set all samples that were held, and after them a prefix of the new
/// ones. The premise is that no checksum is right by chance in what this crash left.
pub fn what_is_left_lies_between<J: Journal>()
    ensures { (ended : Option Segments) (old new : Store) (segments left : Segments)
        → SaysWhat segments old → AllByRecursion (IsWholeText page_size) segments
        → ((l : Labels) → Begins (list_of old l) (list_of new l))
        → (x : IsLeft J.tears ended new segments left)
        → HasNoChance J.tears ended new x.base left x.is → LiesBetween old new left }
{
    segments_add_up();
}

/// Law: if a log defines each label set once, so does what a crash leaves of it while a request is
/// answered, with the same premise, and while it is opened.
pub fn what_is_left_is_defined_once<J: Journal>()
    ensures answering { (ended : Option Segments) (new : Store) (segments left : Segments)
        → AllByRecursion (IsWholeText page_size) segments
        → (x : IsLeft J.tears ended new segments left)
        → HasNoChance J.tears ended new x.base left x.is → StaysDefinedOnce segments left }
    ensures opening { (segments left : Segments) → HasSameEntries segments left
        → StaysDefinedOnce segments left }
{
    segments_add_up();
    a_beginning_is_defined_once();
}

/// Law: a log that began without entries defines each label set once, over any number of lives,
/// with the same premise for each crash.
pub fn lives_define_each_label_set_once<J: Journal>()
    ensures { (logs : ℕ → Segments) → entries_of page_size (logs 0) ≡ []
        → ((at : ℕ) → MayBecome J.tears (logs at) (logs (suc at)))
        → (at : ℕ) → IsDefinedOnce (entries_of page_size (logs at)) }
{
    segments_add_up();
    a_beginning_is_defined_once();
}

/// Law: whatever a head is asked, it holds what a head with its limits may hold, if it did so
/// before.
pub fn a_head_stays_within_its_limits()
    ensures { (h : State) (body : List ℕ) → MayHold h.limits (list_of h.store)
        → MayHold h.limits (list_of (answer h body).head.store) }
{}

/// Law: a head with the same limits takes the log of what a head may hold, also if a crash left it
/// while a request was answered, or while it was opened.
pub fn a_kept_log_is_admitted()
    ensures kept { (limits : LabelLimits) (store : Store) (segments : Segments)
        → SaysWhat segments store → MayHold limits (list_of store) → IsAdmitted limits segments }
    ensures answering { (limits : LabelLimits) (old new : Store) (left : Segments)
        → LiesBetween old new left → MayHold limits (list_of new) → IsAdmitted limits left }
    ensures opening { (limits : LabelLimits) (segments left : Segments)
        → HasSameEntries segments left → IsAdmitted limits segments → IsAdmitted limits left }
{}

/// Law: a head that lacks samples, none of them later than a floor, answers a body as the head that
/// holds everything, if each sample that it comes to is later than the floor, or not earlier than
/// the first sample that it holds then of the label set. After it, it lacks the same samples.
pub fn what_is_gone_changes_no_answer()
    ensures { (floor : ℤ) (gone : Labels → List Point) (whole held : State) (body : List ℕ)
        → IsHeadWithout floor gone whole held → CanJudgeBody floor held (read body)
        → AnswerAlike floor gone (answer whole body) (answer held body) }
{
    what_can_be_judged();
}
