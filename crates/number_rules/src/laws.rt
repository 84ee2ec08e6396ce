ghost use Rattle.std.specs.Prelude.{◌≡◌, ℕ, ℤ, pos, ◌*ℤ◌, ◌<◌, ◌≤◌, ◌^◌, unsigned_abs, List, Result, Ok};
ghost use Rattle.algebra.specs.Surd.{IsNonsquare};
ghost use Rattle.algebra.specs.LowestTerms.{Parts, IsNumber};
ghost use Rattle.algebra.specs.NumberField.{HoldsNumbers, IsRadicand};
ghost use Rattle.json_tree.specs.Number.{IsNumber as IsNumberText};
ghost use Rattle.number_rules.specs.ExactText.{exact_text_of, AreShort, ReadsExactText};
ghost use Rattle.number_rules.specs.Nine.{IsNine, IsExactlyNine, nine_text};
ghost use Rattle.number_rules.specs.OneReading.{IsRow, ReadsNear, ReadsText};
ghost use Rattle.number_rules.specs.Rounded.{IsDecimal};
ghost use Rattle.number_rules.specs.Rows.{IsNear};
ghost use Rattle.number_rules.specs.Value.{numerator, denominator};
ghost use Rattle.number_rules.specs.declared.decimal.Decimal.{Decimal};
ghost use Rattle.number_rules.specs.declared.unread.Row.{Row};
ghost use Rattle.number_rules.specs.declared.unread.Unread.{Unread};

/// For each b there's at most one a with which (a+b√k)/n is near enough to a decimal.
pub fn one_a_at_each_b()
    ensures { (k n : ℕ) → IsNonsquare k → n ≤ 1000000 → (near a c b : ℤ)
        → IsNear k n near a b → IsNear k n near c b → a ≡ c }
{}

/// Of the text of a number its own value is read, and of a rational number's text the number over √2 with the same parts:
/// where each part is at most 2^92 in size.
pub fn texts_are_read_back<N>()
    ensures same { (k : ℕ) (parts : N → Parts) → HoldsNumbers k parts → (x : N) (r : Result N Unread)
        → AreShort (parts x) → ReadsExactText k parts (exact_text_of k (parts x)) r → r ≡ Ok x }
    ensures rational { (parts : N → Parts) (p : Parts) (r : Result N Unread) → IsNumber 1 p → AreShort p
        → ReadsExactText 2 parts (exact_text_of 1 p) r → (y : N) × (r ≡ Ok y) × (parts y ≡ p) }
{}

/// A number is rounded to nine decimals in one way: there's exactly one such number of billionths, and it's the number
/// itself where that is a whole number of them.
pub fn one_nine()
    ensures once { (k : ℕ) (p : Parts) (m n : ℤ) → IsRadicand k → IsNumber k p → IsNine k p m → IsNine k p n → m ≡ n }
    ensures exists { (k : ℕ) (p : Parts) → IsRadicand k → k ≤ 3 → IsNumber k p → (m : ℤ) × IsNine k p m }
    ensures exact { (k : ℕ) (p : Parts) (m : ℤ) → IsNumber k p → IsExactlyNine p m → IsNine k p m }
{}

/// The text of a whole number of billionths is a number text, and its value is that many billionths.
pub fn nine_texts()
    ensures number { (m : ℤ) → unsigned_abs m < 10 ^ 64 → IsNumberText (nine_text m) }
    ensures value { (m : ℤ) → unsigned_abs m < 10 ^ 64
        → numerator (nine_text m) *ℤ pos (10 ^ 9) ≡ m *ℤ pos (denominator (nine_text m)) }
    ensures short { (k : ℕ) (p : Parts) (m : ℤ) → IsRadicand k → k ≤ 3 → IsNumber k p → AreShort p → IsNine k p m
        → unsigned_abs m ≤ 2 ^ 125 }
{}

/// Each text has exactly one decimal.
pub fn one_decimal()
    ensures once { (text : List ℕ) (x y : Decimal) → IsDecimal text x → IsDecimal text y → x ≡ y }
    ensures some { (text : List ℕ) → (x : Decimal) × IsDecimal text x }
{}

/// By a row of the table each text has exactly one answer, for texts of any length: a number, or the cause by which it's
/// refused.
pub fn one_answer<N>()
    ensures once { (k : ℕ) (parts : N → Parts) (row : Row) → HoldsNumbers k parts → IsRow k row
        → (text : List ℕ) (r s : Result N Unread) → ReadsText k parts row text r → ReadsText k parts row text s → r ≡ s }
    ensures some { (k : ℕ) (parts : N → Parts) (row : Row) → HoldsNumbers k parts → IsRow k row
        → (text : List ℕ) → (r : Result N Unread) × ReadsText k parts row text r }
{}

/// A number that a row of the table reads of a text lies within the row's tolerance of the text's value.
pub fn answers_are_near<N>()
    ensures { (k : ℕ) (parts : N → Parts) (row : Row) → IsRadicand k → HoldsNumbers k parts → IsRow k row → ReadsNear k parts row }
{}
