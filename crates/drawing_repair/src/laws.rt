ghost use Rattle.std.specs.Prelude.{◌≡◌, ℕ};
ghost use Rattle.scaled_plane.specs.declared.drawing.Ends.{Ends as AnyEnds};
ghost use Rattle.drawing_repair.specs.Narrow.{AreNarrow};
ghost use Rattle.drawing_repair.specs.Repaired.{IsRefusal, IsRepaired};
ghost use Rattle.drawing_repair.specs.declared.answer.Repaired.{Repaired as AnyRepaired};
ghost use Rattle.drawing_repair.specs.declared.answer.RepairFault.{RepairFault as AnyFault};
ghost use Rattle.drawing_repair.specs.declared.answer.Stage.TheVariants.{Drawn};
ghost use Rattle.drawing_repair.specs.declared.options.Faces.{Faces as AnyFaces};
ghost use Rattle.drawing_repair.specs.declared.options.Flat.{Flat as AnyFlat};

use crate::answer::RepairFault;
use exact_number::Exact;

/// The segments between ends have at most one drawing, at most one reason why they have none, and not both.
pub fn one_drawing<N: Exact>()
    ensures answer { (flat : AnyFlat) (ends : AnyEnds N) (faces : AnyFaces) (a b : AnyRepaired N)
        → IsRepaired N.parts N.Ring.numbers flat ends faces a → IsRepaired N.parts N.Ring.numbers flat ends faces b → a ≡ b }
    ensures reason { (flat : AnyFlat) (ends : AnyEnds N) (faces : AnyFaces) (e f : AnyFault)
        → IsRefusal N.parts N.Ring.numbers flat ends faces e → IsRefusal N.parts N.Ring.numbers flat ends faces f → e ≡ f }
    ensures not_both { (flat : AnyFlat) (ends : AnyEnds N) (faces : AnyFaces) (a : AnyRepaired N) (f : AnyFault)
        → IsRepaired N.parts N.Ring.numbers flat ends faces a → ¬ IsRefusal N.parts N.Ring.numbers flat ends faces f }
{}

/// No vertex is too wide to write over the rationals, nor where the coordinates are narrow.
pub fn vertices_can_be_written<N: Exact>()
    ensures rational { N.ROOT ≡ 1 → (flat : AnyFlat) (ends : AnyEnds N) (faces : AnyFaces) (v : ℕ)
        → ¬ IsRefusal N.parts N.Ring.numbers flat ends faces (RepairFault.TooWide v Drawn) }
    ensures narrow { (flat : AnyFlat) (ends : AnyEnds N) (faces : AnyFaces) (v : ℕ) → AreNarrow N.parts ends.coords
        → ¬ IsRefusal N.parts N.Ring.numbers flat ends faces (RepairFault.TooWide v Drawn) }
{}
