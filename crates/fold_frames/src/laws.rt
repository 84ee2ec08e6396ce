ghost use Rattle.std.specs.Prelude.{None, ◌≡◌, ◌⊎◌, ◌↔◌, ◌≤◌, ℕ, List, Some, length};
ghost use Rattle.std.specs.List.{AllByRecursion};
ghost use Rattle.json_tree.specs.Tree.{HasLengthsUpTo, IsProper};
ghost use Rattle.json_tree.specs.declared.tree.Json.{Json};
ghost use Rattle.fold_keys.specs.Shape.{misfit_of_file};
ghost use Rattle.fold_keys.specs.Short.{HasShortLists, HasShortSpec};
ghost use Rattle.fold_keys.specs.Trees.{tree_of_file};
ghost use Rattle.fold_keys.specs.Writable.{IsWritable};
ghost use Rattle.fold_keys.specs.declared.value.Entry.{Entry};
ghost use Rattle.fold_keys.specs.declared.value.FoldFile.{FoldFile as File};
ghost use Rattle.fold_keys.specs.declared.value.Frame.{Frame};
ghost use Rattle.fold_keys.specs.declared.value.Value.{Value};
ghost use Rattle.fold_keys.specs.declared.value.Value.TheVariants.{Coords};
ghost use Rattle.fold_frames.specs.Answers.{AreInherited, HasNone};
ghost use Rattle.fold_frames.specs.Inherits.{HasInEffect};
ghost use Rattle.fold_frames.specs.Parents.{value_at};
ghost use Rattle.fold_frames.specs.declared.fault.FrameFault.{FrameFault};

use fold_keys::writable_entries;

/// Each number has the entries of one effective frame, or one cause why it has none.
pub fn one_effective_frame()
    ensures some { (frames : List Frame) (k : ℕ) →
        ((entries : List Entry) × AreInherited frames k entries)
        ⊎ ((fault : FrameFault) × HasNone frames k fault) }
    ensures one { (frames : List Frame) (k : ℕ) (entries others : List Entry) →
        AreInherited frames k entries → AreInherited frames k others → entries ≡ others }
    ensures one_cause { (frames : List Frame) (k : ℕ) (fault other : FrameFault) →
        HasNone frames k fault → HasNone frames k other → fault ≡ other }
    ensures apart { (frames : List Frame) (k : ℕ) (entries : List Entry) (fault : FrameFault) →
        AreInherited frames k entries → HasNone frames k fault → ⊥ }
{}

/// An effective frame has a key with a value exactly where the frame itself gives it, or the first of
/// its parents that gives the key.
pub fn inherited_by_key()
    ensures { (file : File) → IsWritable file → (k : ℕ) (entries : List Entry) →
        AreInherited file.frames k entries → (key : List ℕ) (value : Value) →
        (value_at entries key ≡ Some value) ↔ HasInEffect file.frames k key value }
{
    writable_entries();
}

/// No text of the coordinates of an effective frame is longer than what is longest in the tree of its file.
pub fn coordinates_are_short()
    ensures { (most : ℕ) (file : File) → IsWritable file → HasLengthsUpTo most (tree_of_file file) →
        (k : ℕ) (entries : List Entry) → AreInherited file.frames k entries →
        (key : List ℕ) (points : List (List (List ℕ))) → value_at entries key ≡ Some (Coords points) →
        AllByRecursion (AllByRecursion (λ text. length text ≤ most)) points }
{
    writable_entries();
}

/// Each tree without misfit is the tree of a file that can be written.
pub fn trees_have_files()
    ensures { (tree : Json) → IsProper tree → HasShortLists tree → HasShortSpec tree →
        misfit_of_file tree ≡ None →
        (file : File) × (tree_of_file file ≡ tree) × IsWritable file }
{}
