//! Laws of what a log owes a receiver, also if it is read from a checkpoint on. Each function has
//! an empty body: its contract is the law.

ghost use Rattle.std.specs.Prelude.{◌≡◌, ℤ, if◌then◌else◌, List, [], ◌∷◌, ◌++◌};
ghost use Rattle.rw_types.specs.Beginnings.{Begins};
ghost use Rattle.rw_types.specs.Labels.{Labels};
ghost use Rattle.rw_types.specs.Rising.{Rises};
ghost use Rattle.rw_types.specs.declared.entry.Entry.{Entry};
ghost use Rattle.rw_wal_format.specs.Series.{samples_after};
ghost use Rattle.rw_relabel.specs.declared.choice.Choice.{Choice};
ghost use Rattle.rw_head.specs.Lists.{IsEarlier};
ghost use Rattle.rw_head.specs.Order.{Point};
ghost use Rattle.rw_restarts.specs.Owed.{pairs_of, is_after_each, rising};
ghost use Rattle.rw_restarts.specs.Owed.{owed_of, EndsWith, those_from};
ghost use Rattle.rw_kept_log.specs.Checkpoints.{SaySame};
ghost use Rattle.rw_restarts.specs.Checkpoints.{IsCheckpointFor, IsInTime};

/// Law: what a log owes of a label set rises, and is a prefix of what a longer log owes. Samples
/// that rise are owed as they are, and one more sample is owed if it is later than all before it.
pub fn what_is_owed_rises()
    ensures rises { (choice : Choice) (log : List Entry) (l : Labels)
        → Rises IsEarlier (owed_of choice log l) }
    ensures longer { (choice : Choice) (log more : List Entry) (l : Labels)
        → Begins (owed_of choice log l) (owed_of choice (log ++ more) l) }
    ensures same { (ps : List Point) → Rises IsEarlier ps → rising ps ≡ ps }
    ensures next { (ps : List Point) (p : Point) → rising (ps ++ p ∷ [])
        ≡ rising ps ++ (if is_after_each p.0 ps then p ∷ [] else []) }
{}

/// Law: a log whose oldest segments were replaced by a checkpoint gives each label set, after the
/// checkpoint, exactly the samples that it has in the whole log. In the checkpoint it has those of
/// its samples that are not earlier than a time. If no later sample of the label set is earlier
/// than that time, what the log owes a receiver is a suffix of what the whole log owes it;
/// and so, after some earlier samples, a prefix of what the log owes it when it has grown.
pub fn a_checkpoint_keeps_the_series()
    ensures rest { (full cp later : List Entry) (l : Labels) → SaySame full cp later
        → pairs_of (samples_after l cp later) ≡ pairs_of (samples_after l full later) }
    ensures whole { (floor : ℤ) (full cp later : List Entry) (l : Labels)
        → IsCheckpointFor floor l full cp later
        → pairs_of (samples_after l [] (cp ++ later))
        ≡ those_from floor (pairs_of (samples_after l [] full))
        ++ pairs_of (samples_after l full later) }
    ensures owed { (choice : Choice) (floor : ℤ) (full cp later : List Entry) (l : Labels)
        → IsCheckpointFor floor l full cp later → IsInTime floor l full later
        → EndsWith (owed_of choice (full ++ later) l) (owed_of choice (cp ++ later) l) }
    ensures part { (choice : Choice) (floor : ℤ) (full cp later more : List Entry)
        (l : Labels) → IsCheckpointFor floor l full cp later → IsInTime floor l full later
        → (earlier : List Point) × Begins (earlier ++ owed_of choice (cp ++ later) l)
        (owed_of choice ((full ++ later) ++ more) l) }
{}

/// Law: of samples that are not earlier than a time, those that rise are those that rise among all
/// samples and are not earlier than it. They are a suffix of all that rise.
pub fn samples_from_a_time_on_rise_alike()
    ensures same { (floor : ℤ) (ps : List Point)
        → rising (those_from floor ps) ≡ those_from floor (rising ps) }
    ensures suffix { (floor : ℤ) (ps : List Point)
        → EndsWith (rising ps) (rising (those_from floor ps)) }
{}
