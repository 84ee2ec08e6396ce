// How many vertices, edges and faces a frame has.
ghost use Rattle.std.specs.Prelude.{◌≡◌, ◌<◌, ◌^◌, ℕ, IfSome, Some, None, map, option_map, option_and_then};
ghost use Rattle.std.specs.List.{list_any};
ghost use Rattle.fold_keys.specs.declared.fault.FoldFault.TheVariants as faults;
ghost use Rattle.fold_frames.specs.Counts.{first_of, lists_of, length_of, length_at, count_of, other_length, uneven_of, first_uneven, id_lists, is_some_past, place_past, past_at, first_past, fault_at, IsFault, AnswersCounts};

use crate::frame::Effective;
use fold_base::Text;
use fold_keys::{FoldFault, Part, ShapeFault, ShapeKind, Value};
use std::alloc::Global;

/// How many vertices, edges and faces a frame has. There is none where no list tells.
#[derive(Clone, Copy, Debug, PartialEq, Eq)]
pub struct Counts {
    pub vertices: Option<u32>,
    pub edges: Option<u32>,
    pub faces: Option<u32>,
}

/// The keys of the lists that have an element for each of the part, in the order of the table.
fn lists_of(part: Part) -> &'static [&'static str]
    ensures { map (λ key. key.now) result.now ≡ lists_of part }
{
    match part {
        Part::Vertices => &[
            "vertices_coords",
            "fx:vertices_coords",
            "vertices_vertices",
            "vertices_edges",
            "vertices_faces",
        ],
        Part::Edges => &[
            "edges_vertices",
            "edges_faces",
            "edges_assignment",
            "edges_foldAngle",
            "edges_length",
        ],
        Part::Faces => &["faces_vertices", "faces_edges", "faces_faces"],
    }
}

/// How many elements a value has, if it is a list.
fn length_of(value: &Value) -> Option<u32>
    requires { IfSome (length_of value.now) (λ length. length < 2 ^ 32) }
    ensures { result ≡ length_of value.now }
{
    match value {
        Value::Words(words) => Some(words.len() as u32),
        Value::Numbers(texts) => Some(texts.len() as u32),
        Value::Coords(points) => Some(points.len() as u32),
        Value::IdLists(lists) => Some(lists.len() as u32),
        Value::Pairs(pairs) => Some(pairs.len() as u32),
        Value::Letters(letters) => Some(letters.len() as u32),
        Value::Orders(orders) => Some(orders.len() as u32),
        Value::Exact(points) => Some(points.len() as u32),
        _ => None,
    }
}

/// The place of the first element with an id that isn't below the count.
fn place_past(value: &Value, count: u32) -> Option<usize>
    ensures { result ≡ place_past count value.now }
{
    match value {
        Value::IdLists(lists) => lists
            .as_slice()
            .iter()
            .position(|ids| has_past(ids.as_slice(), count)),
        Value::Pairs(pairs) => pairs
            .as_slice()
            .iter()
            .position(|pair| pair.0 >= count || pair.1 >= count),
        Value::Orders(orders) => orders
            .as_slice()
            .iter()
            .position(|order| order.first >= count || order.second >= count),
        _ => None,
    }
}

/// Whether one of the ids isn't below the count.
fn has_past(ids: &[Option<u32>], count: u32) -> bool
    ensures { result ≡ list_any (is_some_past count) ids.now }
{
    ids.iter().any(|id| match id {
        Some(id) => *id >= count,
        None => false,
    })
}

/// The keys of lists of ids, with what these name, in the order of the table.
fn id_lists() -> &'static [(&'static str, Part)]
    ensures { map (λ list. (list.0.now, list.1)) result.now ≡ id_lists }
{
    &[
        ("vertices_vertices", Part::Vertices),
        ("vertices_edges", Part::Edges),
        ("vertices_faces", Part::Faces),
        ("edges_vertices", Part::Vertices),
        ("edges_faces", Part::Faces),
        ("faces_vertices", Part::Vertices),
        ("faces_edges", Part::Edges),
        ("faces_faces", Part::Faces),
        ("faceOrders", Part::Faces),
    ]
}

impl Effective {
    /// How many there are of each part, or where the lists first don't agree on it.
    pub fn counts(&self, alloc: Global) -> Result<Counts, FoldFault>
        ensures { AnswersCounts self.now result }
    {
        let counts = Counts {
            vertices: self.count(Part::Vertices),
            edges: self.count(Part::Edges),
            faces: self.count(Part::Faces),
        };
        if let Some((key, length)) = self.uneven() {
            return Err(fault(alloc, self.frame(), key, length, ShapeKind::Uneven));
        }
        if let Some((key, place)) = self.past() {
            return Err(fault(alloc, self.frame(), key, place, ShapeKind::IdRange));
        }
        Ok(counts)
    }

    /// The length of the list at the key.
    fn length(&self, key: &str) -> Option<u32>
        ensures { result ≡ length_at self.now.entries key.now }
    {
        length_of(self.get(key.as_bytes())?)
    }

    /// How many there are of the part: the length of the first of its lists.
    fn count(&self, part: Part) -> Option<u32>
        ensures { result ≡ count_of self.now.entries part }
    {
        for key in lists_of(part) {
            if let Some(length) = self.length(key) {
                return Some(length);
            }
        }
        None
    }

    /// The first list of the part that has another length than the first, with its length.
    fn uneven_of(&self, part: Part) -> Option<(&'static str, u32)>
        ensures { option_map (λ at. (at.0.now, at.1)) result ≡ uneven_of self.now.entries part }
    {
        let count = self.count(part)?;
        for key in lists_of(part) {
            if let Some(length) = self.other_length(key, count) {
                return Some((key, length));
            }
        }
        None
    }

    /// The length of the list at the key, if it is another than this.
    fn other_length(&self, key: &str, count: u32) -> Option<u32>
        ensures { option_map (λ length. (key.now, length)) result
            ≡ other_length self.now.entries count key.now }
    {
        self.length(key).filter(|length| *length != count)
    }

    fn uneven(&self) -> Option<(&'static str, u32)>
        ensures { option_map (λ at. (at.0.now, at.1)) result ≡ first_uneven self.now.entries }
    {
        self.uneven_of(Part::Vertices)
            .or(self.uneven_of(Part::Edges))
            .or(self.uneven_of(Part::Faces))
    }

    /// The first list with an id that isn't below a known count, and the place of its element.
    fn past(&self) -> Option<(&'static str, u32)>
        ensures { option_map (λ at. (at.0.now, at.1)) result ≡ first_past self.now.entries }
    {
        for (key, part) in id_lists() {
            if let Some(place) = self.past_at(key, *part) {
                return Some((key, place));
            }
        }
        None
    }

    fn past_at(&self, key: &str, part: Part) -> Option<u32>
        ensures { option_map (λ place. (key.now, place)) result ≡ past_at self.now.entries (key.now, part) }
    {
        let known = self.count(part)?;
        let place = place_past(self.get(key.as_bytes())?, known)?;
        Some(place as u32)
    }
}

/// The fault at this place, or that memory is wanting for its key.
fn fault(alloc: Global, frame: u32, key: &str, index: u32, cause: ShapeKind) -> FoldFault
    ensures { IsFault (fault_at frame cause (key.now, index)) result }
{
    match Text::from_text(alloc, key) {
        Ok(key) => FoldFault::Shape(ShapeFault {
            frame,
            key,
            index,
            cause,
        }),
        Err(error) => FoldFault::Memory(error),
    }
}
