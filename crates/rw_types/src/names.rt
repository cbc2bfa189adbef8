//! Which names labels may have.

/// Which label names, and which values of `__name__`, are accepted (`name_validation_scheme` of
/// Prometheus).
#[derive(Clone, Copy, Debug, PartialEq, Eq)]
pub enum Names {
    /// Names of ASCII letters, digits and underscores, as before Prometheus 3:
    /// `[a-zA-Z_][a-zA-Z0-9_]*`, and for the value of `__name__` `[a-zA-Z_:][a-zA-Z0-9_:]*`.
    Legacy,
    /// Any UTF-8 text that is not empty.
    Utf8,
}
