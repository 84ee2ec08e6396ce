ghost use Rattle.std.specs.Prelude.{◌≡◌, ◌≤◌, ◌^◌, ℕ, List, None, true, length};
ghost use Rattle.json_tree.specs.Tree.{HasLengthsUpTo};
ghost use Rattle.json_tree.specs.declared.tree.Json.{Json};
ghost use Rattle.fold_keys.specs.Short.{HasShortLists, HasShortSpec};
ghost use Rattle.fold_keys.specs.Shape.{misfit_of_file};
ghost use Rattle.fold_keys.specs.Trees.{tree_of_file};
ghost use Rattle.fold_keys.specs.Writable.{IsWritable, AreWritable, HaveWritable, file_of};
ghost use Rattle.fold_keys.specs.declared.value.Entry.{Entry};
ghost use Rattle.fold_keys.specs.declared.value.FoldFile.{FoldFile};

/// What is asked of the lists of a tree and of its version is true of a tree without a list, object,
/// number, word or key longer than 16,777,216, as each tree is that was read from a text.
pub fn read_trees_are_readable()
    ensures lists { (most : ℕ) (tree : Json) → most ≤ 16777216 → HasLengthsUpTo most tree → HasShortLists tree }
    ensures version { (most : ℕ) (tree : Json) → most ≤ 16777216 → HasLengthsUpTo most tree → HasShortSpec tree }
{}

/// The tree of a writable file has no misfit, and no other writable file has it.
pub fn written_reads_back()
    ensures fits { (file : FoldFile) → IsWritable file → misfit_of_file (tree_of_file file) ≡ None }
    ensures one { (f g : FoldFile) → IsWritable f → IsWritable g → tree_of_file f ≡ tree_of_file g → f ≡ g }
{}

/// What a writable file is made of: at most 2^32 frames, each with writable entries. Writable entries
/// of a first frame are a writable file.
pub fn writable_entries()
    ensures few { (file : FoldFile) → IsWritable file → length file.frames ≤ 2 ^ 32 }
    ensures have { (file : FoldFile) → IsWritable file → HaveWritable file.frames }
    ensures make { (entries : List Entry) → AreWritable true entries → IsWritable (file_of entries) }
{}
