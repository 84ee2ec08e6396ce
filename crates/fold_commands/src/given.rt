// What a drawing is read from.
use cp_lines::CpLine;
use fold_base::List;
use fold_frames::Effective;

/// The segments of a drawing, before their coordinates are read as numbers.
#[derive(Debug, Drop)]
pub enum Given {
    /// Those of CP text.
    Lines(List<CpLine>),
    /// The edges of a frame.
    Frame(Effective),
}
