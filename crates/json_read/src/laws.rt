ghost use Rattle.std.specs.Prelude.{◌≡◌, ◌≢◌, ◌⊎◌, ◌++◌, [], ◌∷◌, ℕ, List, Result, Ok, codes, replicate};
ghost use Rattle.json_tree.specs.PrintedForm.{printed_form};
ghost use Rattle.json_tree.specs.Spells.{Spells};
ghost use Rattle.json_tree.specs.Tree.{HasValidTexts, IsProper};
ghost use Rattle.json_tree.specs.declared.tree.Json.{Json};
ghost use Rattle.json_read.specs.Causes.{IsFaultAt, NamesFirstFault};
ghost use Rattle.json_read.specs.Reads.{FinishAnswers, LacksMemory};
ghost use Rattle.json_read.specs.declared.fault.JsonCause.TheVariants.{Byte, Ended, KeyTwice, Deep};
ghost use Rattle.json_read.specs.declared.fault.JsonFault.{JsonFault};
ghost use Rattle.json_read.specs.declared.fault.JsonReadFault.{JsonReadFault};

/// A text spells one tree or has one first fault, and not both. A fault at a byte is that of each longer text.
pub fn one_reading()
    ensures tree { (text : List ℕ) (a b : Json) → Spells text a → Spells text b → a ≡ b }
    ensures fault { (text : List ℕ) (f g : JsonFault) → NamesFirstFault text f → NamesFirstFault text g → f ≡ g }
    ensures either { (text : List ℕ) (tree : Json) (fault : JsonFault) → Spells text tree → NamesFirstFault text fault → ⊥ }
    ensures stays { (text more : List ℕ) (fault : JsonFault) → NamesFirstFault text fault → fault.cause ≢ Ended → NamesFirstFault (text ++ more) fault }
    ensures some { (text : List ℕ) → ((tree : Json) × Spells text tree) ⊎ ((fault : JsonFault) × NamesFirstFault text fault) }
{}

/// What may be answered at the end of the printed form of a proper tree is that tree, or want of memory. A reader takes
/// at most [`fold_base::MOST_BYTES`] bytes, so this speaks of trees whose printed form is no longer.
pub fn reads_back()
    ensures { (tree : Json) (answer : Result Json JsonReadFault) → HasValidTexts tree → IsProper tree
        → FinishAnswers (printed_form tree) answer → (answer ≡ Ok tree) ⊎ LacksMemory answer }
{}

/// Short texts and their first faults.
pub fn short_faults()
    ensures nothing { IsFaultAt [] 0 Ended }
    ensures blanks { IsFaultAt (codes " \n") 2 Ended }
    ensures cut_short { IsFaultAt (codes "[1,") 3 Ended }
    ensures comma_last { IsFaultAt (codes "[1,]") 3 Byte }
    ensures two_values { IsFaultAt (codes "1 2") 2 Byte }
    ensures zero_first { IsFaultAt (codes "01") 1 Byte }
    ensures bare_point { IsFaultAt (codes "[1.]") 3 Byte }
    ensures lone_low { IsFaultAt (codes "\"\\uDC00\"") 4 Byte }
    ensures lone_high { IsFaultAt (codes "\"\\ud83d\"") 7 Byte }

    // A key twice, at its closing quote, also where it is spelled with an escape or comes after an inner object.
    ensures key_twice { IsFaultAt (codes "{\"a\":1,\"a\":2}") 9 KeyTwice }
    ensures key_by_unit { IsFaultAt (codes "{\"a\":1,\"\\u0061\":2}") 14 KeyTwice }
    ensures key_of_outer { IsFaultAt (codes "{\"a\":{\"b\":1},\"a\":2}") 15 KeyTwice }
    ensures key_of_inner { IsFaultAt (codes "{\"a\":{\"a\":1}") 12 Ended }
    ensures quote_in_unit { IsFaultAt (codes "{\"\":1,\"\\u00\"") 11 Byte }

    // A list or an object inside of 64 others, but no bracket where none can stand, and none within a word.
    ensures deep_list { IsFaultAt (replicate 65 91) 64 Deep }
    ensures deep_object { IsFaultAt (replicate 64 91 ++ codes "1,{}") 66 Deep }
    ensures bracket_after_number { IsFaultAt (replicate 64 91 ++ codes "1[") 65 Byte }
    ensures bracket_in_word { IsFaultAt (replicate 64 91 ++ codes "\"[") 66 Ended }
{}
