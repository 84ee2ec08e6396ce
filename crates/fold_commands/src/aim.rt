/// What is made of a sheet once it is folded.
#[derive(Clone, Copy, Debug, PartialEq, Eq)]
pub enum Aim {
    /// The file of its folded form.
    Form,
    /// Whether its layers can lie as its faces are ordered.
    Verdict,
}
