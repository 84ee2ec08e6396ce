// What holds of all lines and frames.
ghost use Rattle.std.specs.Prelude.{◌≡◌, ◌⊎◌, ℕ, Bool, IfSome, List, Option};
ghost use Rattle.fold_keys.specs.declared.value.Entry.{Entry as AnyEntry};
ghost use Rattle.fold_keys.specs.declared.value.FaceOrder.{FaceOrder as AnyOrder};
ghost use Rattle.fold_keys.specs.declared.value.FoldFile.{FoldFile as AnyFile};
ghost use Rattle.cp_lines.specs.declared.line.CpLine.{CpLine as AnyLine};
ghost use Rattle.number_rules.specs.OneReading.{IsRow};
ghost use Rattle.number_rules.specs.declared.unread.Row.{Row as AnyRow};
ghost use Rattle.scaled_plane.specs.declared.drawing.Ends.{Ends as AnyEnds};
ghost use Rattle.scaled_plane.specs.declared.drawing.Face.{Face as AnyFace};
ghost use Rattle.crease_input.specs.Files.{AreDrawingLines, IsDrawingFile};
ghost use Rattle.crease_input.specs.Readings.{HasDrawing, HasNoDrawing, HaveEnds, HaveUnread};
ghost use Rattle.crease_input.specs.Roots.{root_of};
ghost use Rattle.crease_input.specs.declared.fault.InputFault.{InputFault as AnyFault};

use exact_number::Exact;
use number_rules::{one_answer, one_nine, texts_are_read_back};

/// By a row of the table of rules lines have exactly one reading: their vertices and edges, or the first coordinate that isn't
/// read.
pub fn one_reading<N: Exact>()
    ensures ends { (row : AnyRow) → IsRow N.ROOT row → (lines : List AnyLine) (a b : AnyEnds N)
        → HaveEnds N.ROOT N.parts row lines a → HaveEnds N.ROOT N.parts row lines b → a ≡ b }
    ensures unread { (row : AnyRow) → IsRow N.ROOT row → (lines : List AnyLine) (e f : AnyFault)
        → HaveUnread N.ROOT N.parts row lines e → HaveUnread N.ROOT N.parts row lines f → e ≡ f }
    ensures not_both { (row : AnyRow) → IsRow N.ROOT row → (lines : List AnyLine) (a : AnyEnds N) (f : AnyFault)
        → HaveEnds N.ROOT N.parts row lines a → ¬ HaveUnread N.ROOT N.parts row lines f }
    ensures some { (row : AnyRow) → IsRow N.ROOT row → (lines : List AnyLine)
        → ((a : AnyEnds N) × HaveEnds N.ROOT N.parts row lines a) ⊎ ((f : AnyFault) × HaveUnread N.ROOT N.parts row lines f) }
{
    one_answer::<N>();
}

/// By a row of the table of rules a frame has at most one drawing, or one cause why it has none, and not both. It has one of
/// the two where its exact texts, if it has any, are over the root of the numbers.
pub fn one_drawing<N: Exact>()
    ensures answer { (row : AnyRow) → IsRow N.ROOT row → (faces : Bool) (entries : List AnyEntry) (a b : AnyEnds N × List AnyFace)
        → HasDrawing N.ROOT N.parts row faces entries a → HasDrawing N.ROOT N.parts row faces entries b → a ≡ b }
    ensures reason { (row : AnyRow) → IsRow N.ROOT row → (faces : Bool) (entries : List AnyEntry) (e f : AnyFault)
        → HasNoDrawing N.ROOT N.parts row faces entries e → HasNoDrawing N.ROOT N.parts row faces entries f → e ≡ f }
    ensures not_both { (row : AnyRow) → IsRow N.ROOT row → (faces : Bool) (entries : List AnyEntry) (a : AnyEnds N × List AnyFace)
        (f : AnyFault) → HasDrawing N.ROOT N.parts row faces entries a → ¬ HasNoDrawing N.ROOT N.parts row faces entries f }
    ensures some { (row : AnyRow) → IsRow N.ROOT row → (faces : Bool) (entries : List AnyEntry)
        → IfSome (root_of entries) (λ root. root ≡ N.ROOT)
        → ((a : AnyEnds N × List AnyFace) × HasDrawing N.ROOT N.parts row faces entries a)
        ⊎ ((f : AnyFault) × HasNoDrawing N.ROOT N.parts row faces entries f) }
{
    one_answer::<N>();
    one_nine();
    texts_are_read_back::<N>();
}

/// Vertices and edges, with or without faces and their orders, have exactly one file of a class.
pub fn one_file<N: Exact>()
    ensures once { (class : List ℕ) (ends : AnyEnds N) (faces : Option (List AnyFace)) (orders : Option (List AnyOrder))
        (f g : AnyFile) → IsDrawingFile N.ROOT N.parts class ends faces orders f
        → IsDrawingFile N.ROOT N.parts class ends faces orders g → f ≡ g }
    ensures some { (class : List ℕ) (ends : AnyEnds N) (faces : Option (List AnyFace)) (orders : Option (List AnyOrder))
        → (f : AnyFile) × IsDrawingFile N.ROOT N.parts class ends faces orders f }
{
    one_nine();
}

/// Vertices and edges have exactly one list of CP lines.
pub fn one_list_of_lines<N: Exact>()
    ensures once { (ends : AnyEnds N) (v w : List AnyLine) → AreDrawingLines N.ROOT N.parts ends v
        → AreDrawingLines N.ROOT N.parts ends w → v ≡ w }
    ensures some { (ends : AnyEnds N) → (v : List AnyLine) × AreDrawingLines N.ROOT N.parts ends v }
{
    one_nine();
}
