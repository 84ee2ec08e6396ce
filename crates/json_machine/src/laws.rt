ghost use Rattle.std.specs.Prelude.{◌≡◌, ◌++◌, [], ◌∷◌, ℕ, List, Some, codes, replicate};
ghost use Rattle.first_fault.specs.FirstFault.{IsAccepted};
ghost use Rattle.first_fault.specs.Machine.{Decides, answer};
ghost use Rattle.json_tree.specs.Spells.{Spells};
ghost use Rattle.json_tree.specs.PrintedForm.{printed_form};
ghost use Rattle.json_tree.specs.Tree.{HasValidTexts, IsProper};
ghost use Rattle.json_tree.specs.declared.tree.Json.{Json, Number, Word};
ghost use Rattle.json_tree.specs.declared.tree.Json.TheViews as trees;
ghost use Rattle.json_machine.specs.Machine.{step, finish, start};

/// No text spells two trees.
pub fn one_tree()
    ensures { (text : List ℕ) (a b : Json) → Spells text a → Spells text b → a ≡ b }
{}

/// Reading the printed form of a proper tree gives that tree.
pub fn reads_back()
    ensures { (tree : Json) → HasValidTexts tree → IsProper tree → answer step finish start (printed_form tree) ≡ Some tree }
{}

/// Reading byte by byte decides which text spells which tree.
pub fn machine_decides()
    ensures { Decides Spells step finish start }
{}

/// Short texts that spell a tree, and short texts that spell none.
pub fn short_texts()
    ensures minus_zero { Spells (codes "-0") (Number (codes "-0")) }
    ensures exponent { Spells (codes "1.50e+02") (Number (codes "1.50e+02")) }
    ensures zero_first { ¬ IsAccepted Spells (codes "01") }
    ensures bare_point { ¬ IsAccepted Spells (codes "1.") }
    ensures no_int { ¬ IsAccepted Spells (codes ".5") }

    ensures blanks { Spells (32 ∷ 9 ∷ 10 ∷ 13 ∷ 91 ∷ 32 ∷ 9 ∷ 10 ∷ 13 ∷ 93 ∷ 32 ∷ []) (trees.List []) }
    ensures form_feed { ¬ IsAccepted Spells (12 ∷ codes "0") }

    // Each escape by a letter, units of one to three bytes, and a pair.
    ensures letters { Spells (codes "\"\\\"\\\\\\/\\b\\f\\n\\r\\t\"") (Word (34 ∷ 92 ∷ 47 ∷ 8 ∷ 12 ∷ 10 ∷ 13 ∷ 9 ∷ [])) }
    ensures units { Spells (codes "\"\\u0041\\u00e9\\u20AC\"") (Word (65 ∷ 195 ∷ 169 ∷ 226 ∷ 130 ∷ 172 ∷ [])) }
    ensures surrogates { Spells (codes "\"\\ud83d\\ude00\"") (Word (240 ∷ 159 ∷ 152 ∷ 128 ∷ [])) }
    ensures lone_low { ¬ IsAccepted Spells (codes "\"\\uDC00\"") }
    ensures lone_high { ¬ IsAccepted Spells (codes "\"\\ud83d\"") }
    ensures control { ¬ IsAccepted Spells (34 ∷ 31 ∷ 34 ∷ []) }

    // The bytes round the ranges of hexadecimal digits are none.
    ensures before_0 { ¬ IsAccepted Spells (codes "\"\\u000/\"") }
    ensures after_9 { ¬ IsAccepted Spells (codes "\"\\u000:\"") }
    ensures before_upper { ¬ IsAccepted Spells (codes "\"\\u000@\"") }
    ensures after_upper { ¬ IsAccepted Spells (codes "\"\\u000G\"") }
    ensures before_lower { ¬ IsAccepted Spells (codes "\"\\u000`\"") }
    ensures after_lower { ¬ IsAccepted Spells (codes "\"\\u000g\"") }

    // The bytes of a longer form, of a surrogate, and of what is past U+10FFFF.
    ensures overlong { ¬ IsAccepted Spells (34 ∷ 192 ∷ 128 ∷ 34 ∷ []) }
    ensures surrogate { ¬ IsAccepted Spells (34 ∷ 237 ∷ 160 ∷ 128 ∷ 34 ∷ []) }
    ensures past_the_last { ¬ IsAccepted Spells (34 ∷ 244 ∷ 144 ∷ 128 ∷ 128 ∷ 34 ∷ []) }
    ensures last { Spells (34 ∷ 244 ∷ 143 ∷ 191 ∷ 191 ∷ 34 ∷ []) (Word (244 ∷ 143 ∷ 191 ∷ 191 ∷ [])) }

    // A key twice, once spelled with an escape; 64 lists and 65; and no value at all.
    ensures key_twice { ¬ IsAccepted Spells (codes "{\"a\":1,\"\\u0061\":2}") }
    ensures deepest { IsAccepted Spells (replicate 64 91 ++ replicate 64 93) }
    ensures too_deep { ¬ IsAccepted Spells (replicate 65 91 ++ replicate 65 93) }
    ensures nothing { ¬ IsAccepted Spells [] }
    ensures comma_last { ¬ IsAccepted Spells (codes "[1,]") }
{}
