use json_tree::NumberText;

/// A segment of a crease pattern, from (x1, y1) to (x2, y2). The kind is 1 for the border, 2 for a mountain, 3 for a
/// valley, and 0 or 4 for a line that stays flat, as ORIPA's auxiliary lines do.
#[derive(Debug, Drop)]
pub struct CpLine {
    pub kind: u8,
    pub x1: NumberText,
    pub y1: NumberText,
    pub x2: NumberText,
    pub y2: NumberText,
}
