//! Laws of the grammar of messages. Each function has an empty body: its contract is the law.

ghost use Rattle.std.specs.Prelude.{◌≡◌, ◌↔◌, ℕ, ◌≤◌, ◌++◌, List, length, Ok, Err};
ghost use Rattle.rw_types.specs.Labels.{Label};
ghost use Rattle.rw_write_request.specs.Message.{Sample, TimeSeries, WriteRequest};
ghost use Rattle.rw_write_request.specs.Spells.{Spells};
ghost use Rattle.rw_write_request.specs.Read.{read};
ghost use Rattle.rw_write_request.specs.Parts.{read_on, series_on};
ghost use Rattle.rw_write_request.specs.Faults.{RequestFault};
ghost use Rattle.rw_write_request.specs.declared.fault.WireFault.{WireFault};
ghost use Rattle.rw_write_request.specs.Valid.{IsMessage};
ghost use Rattle.rw_write_request.specs.Canon.{canon, sample_field, sample_fields, series_field, series_head};

/// Law: bytes are read as a message exactly if they spell it.
pub fn reads_spellings()
    ensures { (bytes : List ℕ) (message : WriteRequest)
        → (read bytes ≡ Ok message) ↔ Spells bytes message }
{}

/// Law: bytes spell at most one message.
pub fn one_message()
    ensures { (bytes : List ℕ) (one other : WriteRequest) → Spells bytes one → Spells bytes other
        → one ≡ other }
{}

/// Law: bytes are refused exactly by their first fault: the fields before it are whole and sound,
/// and it is the fault of the field there.
pub fn faults_are_first()
    ensures { (bytes : List ℕ) (fault : WireFault)
        → (read bytes ≡ Err fault) ↔ RequestFault bytes fault }
{}

/// Law: the canonical spelling of a message is one of its spellings.
pub fn canonical_is_a_spelling()
    ensures { (message : WriteRequest) → IsMessage message → Spells (canon message) message }
{}

/// Law: the canonical spelling of a message is read back as that message.
pub fn canonical_is_read()
    ensures { (message : WriteRequest) → IsMessage message → read (canon message) ≡ Ok message }
{}

/// Law: the field of a series is its head, which depends on the length of the sample fields, and
/// then the sample fields.
pub fn series_in_parts()
    ensures { (labels : List Label) (samples : List Sample)
        → series_field (record { labels = labels; samples = samples })
        ≡ series_head labels (length (sample_fields samples)) ++ sample_fields samples }
{}

/// Law: the field of a sample takes at most 22 bytes.
pub fn sample_field_is_short()
    ensures { (sample : Sample) → length (sample_field sample) ≤ 22 }
{}

/// Law: the series that were read of a message stay its first ones.
pub fn what_is_read_stays()
    ensures { (bytes : List ℕ) (before whole : WriteRequest) → read_on before bytes ≡ Ok whole
        → (more : WriteRequest) × (whole ≡ before ++ more) }
{}

/// Law: the samples that were read of a series stay its first ones.
pub fn samples_stay()
    ensures { (bytes : List ℕ) (before whole : TimeSeries) → series_on before bytes ≡ Ok whole
        → (more : List Sample) × (whole.samples ≡ before.samples ++ more) }
{}
