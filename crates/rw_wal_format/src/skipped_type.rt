//! The types of skipped records (wal.md).

ghost use Rattle.std.specs.Prelude.{◌≡◌, ◌<◌};
ghost use Rattle.rw_wal_format.specs.Skipped.{type_of_byte, skipped_type, type_number, loses_samples};

/// The type of a record that is skipped, since it holds neither series nor samples.
#[derive(Clone, Copy, Debug, PartialEq, Eq, Drop)]
pub enum SkippedType {
    /// An empty record, or one of a type that is not listed here.
    Unknown,
    /// Ranges of time that were deleted from series.
    Tombstones,
    /// Exemplars.
    Exemplars,
    /// Markers of chunks that were mapped to memory.
    MmapMarkers,
    /// The type, unit and help of metrics.
    Metadata,
    /// Samples of native histograms with integer counts.
    Histograms,
    /// Samples of native histograms with float counts.
    FloatHistograms,
    /// Samples of native histograms with integer counts and custom buckets.
    CustomHistograms,
    /// Samples of native histograms with float counts and custom buckets.
    CustomFloatHistograms,
}

impl SkippedType {
    /// Returns the type that a record's first byte stands for.
    #[tactic(auto, unfolding(crate::specs::Skipped::type_of_byte))]
    pub fn from_byte(byte: u8) -> SkippedType
        ensures { result ≡ type_of_byte byte }
    {
        match byte {
            3 => SkippedType::Tombstones,
            4 => SkippedType::Exemplars,
            5 => SkippedType::MmapMarkers,
            6 => SkippedType::Metadata,
            7 => SkippedType::Histograms,
            8 => SkippedType::FloatHistograms,
            9 => SkippedType::CustomHistograms,
            10 => SkippedType::CustomFloatHistograms,
            _ => SkippedType::Unknown,
        }
    }

    /// Returns the type of a skipped record.
    pub fn of(bytes: &[u8]) -> SkippedType
        ensures { result ≡ skipped_type bytes.now }
    {
        if bytes.is_empty() {
            return SkippedType::Unknown;
        }
        SkippedType::from_byte(bytes[0])
    }

    /// Returns the byte that stands for the type, at most 10, or 0 for `Unknown`.
    pub fn number(self) -> u8
        ensures number { result ≡ type_number self }
        ensures small { result < 11 }
    {
        match self {
            SkippedType::Unknown => 0,
            SkippedType::Tombstones => 3,
            SkippedType::Exemplars => 4,
            SkippedType::MmapMarkers => 5,
            SkippedType::Metadata => 6,
            SkippedType::Histograms => 7,
            SkippedType::FloatHistograms => 8,
            SkippedType::CustomHistograms => 9,
            SkippedType::CustomFloatHistograms => 10,
        }
    }

    /// Returns whether such a record may hold samples, which are lost when it is skipped: one of
    /// histograms does, and one of an unknown type may.
    pub fn loses_samples(self) -> bool
        ensures { result ≡ loses_samples self }
    {
        match self {
            SkippedType::Unknown => true,
            SkippedType::Tombstones => false,
            SkippedType::Exemplars => false,
            SkippedType::MmapMarkers => false,
            SkippedType::Metadata => false,
            SkippedType::Histograms => true,
            SkippedType::FloatHistograms => true,
            SkippedType::CustomHistograms => true,
            SkippedType::CustomFloatHistograms => true,
        }
    }

    /// Returns the name of the type, as Prometheus has it.
    pub fn name(self) -> &'static str {
        match self {
            SkippedType::Unknown => "unknown",
            SkippedType::Tombstones => "tombstones",
            SkippedType::Exemplars => "exemplars",
            SkippedType::MmapMarkers => "mmapmarkers",
            SkippedType::Metadata => "metadata",
            SkippedType::Histograms => "histogram_samples",
            SkippedType::FloatHistograms => "float_histogram_samples",
            SkippedType::CustomHistograms => "custom_buckets_histogram_samples",
            SkippedType::CustomFloatHistograms => "custom_buckets_float_histogram_samples",
        }
    }
}
