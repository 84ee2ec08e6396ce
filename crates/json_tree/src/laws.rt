ghost use Rattle.std.specs.Prelude.{◌↔◌, ℕ, List, length, IsTrue};
ghost use Rattle.json_tree.specs.Number.{IsNumber, BeginsNumber};
ghost use Rattle.json_tree.specs.Scan.{is_number, begins_number};
ghost use Rattle.json_tree.specs.Spells.{Spells};
ghost use Rattle.json_tree.specs.Tree.{HasValidTexts, HasLengthsUpTo, IsProper};
ghost use Rattle.json_tree.specs.declared.tree.Json.{Json};

/// The tests of number texts, byte by byte, are right.
pub fn number_tests()
    ensures whole { (text : List ℕ) → IsTrue (is_number text) ↔ IsNumber text }
    ensures begins { (text : List ℕ) → IsTrue (begins_number text) ↔ BeginsNumber text }
{}

/// The tree that a text spells is proper, its texts are numbers and UTF-8, and no list, object, number, word or key of it
/// is longer than the text: it has no more elements, members or bytes than the text has bytes.
pub fn spelled_trees_are_proper()
    ensures proper { (text : List ℕ) (tree : Json) → Spells text tree → IsProper tree }
    ensures texts { (text : List ℕ) (tree : Json) → Spells text tree → HasValidTexts tree }
    ensures lengths { (text : List ℕ) (tree : Json) → Spells text tree → HasLengthsUpTo (length text) tree }
{}
