//! Decimal texts read as exact numbers, by a rule.
#![tactic(auto)]

mod billionths;
mod cut;
mod decimal;
mod laws;
mod nine;
mod nine_text;
mod readers;
mod rule;
mod scan;
mod search;
mod texts;
mod unread;
mod whole_text;

pub use billionths::has_billionths;
pub use decimal::{Decimal, read_decimal};
pub use laws::{
    answers_are_near, nine_texts, one_a_at_each_b, one_answer, one_decimal, one_nine,
    texts_are_read_back,
};
pub use nine::{Nine, round_to_nine};
pub use nine_text::print9;
pub use readers::{read_exact, read_grid, read_root_three, read_root_two};
pub use rule::{NumberRule, exact_rule, grid_rule, root_three_rule, root_two_rule};
pub use texts::{exact_text, read_exact_text};
pub use unread::{Row, Unread};
