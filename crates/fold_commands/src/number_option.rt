// The option that says how coordinates are read as exact numbers.
ghost use Rattle.std.specs.Prelude.{◌≡◌, ◌≢◌, ◌++◌, IfOk, IfErr, MatchOption, option_map};
ghost use Rattle.std.specs.Fmt.{decimal};
ghost use Rattle.fold_keys.specs.Elements.{id_in_text};
ghost use Rattle.fold_commands.specs.NumberOption.{NamesChoice};
ghost use Rattle.fold_commands.specs.Words.{MeansNone, Says};
ghost use Rattle.fold_commands.specs.declared.number_option.NumberChoice.TheVariants.{Exact};

use crate::denominator::Denominator;
use crate::status::{Status, WordsCause};
use json_tree::{NumberReadFault, NumberText};
use std::alloc::{AllocError, Global};

/// By which rule decimal coordinates are read as exact numbers.
#[derive(Clone, Copy, Debug, PartialEq, Eq)]
pub enum NumberChoice {
    /// As they stand.
    Exact,
    /// By the nearest multiple of 1/n.
    Grid(Denominator),
    /// By the first (a+b√2)/n within 10^-7.
    RootTwo(Denominator),
    /// By the first (a+b√3)/n within 10^-7.
    RootThree(Denominator),
}

/// The choice that the option says, and `exact` where it isn't given.
pub fn number_of(alloc: Global, said: Option<&str>) -> Result<NumberChoice, Status>
    ensures ok { IfOk result (Says NamesChoice Exact (option_map (λ text. text.now) said.entry)) }
    ensures err { IfErr result
        (MeansNone (Says NamesChoice Exact (option_map (λ text. text.now) said.entry))) }
{
    match said {
        None => Ok(NumberChoice::Exact),
        Some(text) => choice_in(alloc, text)?.ok_or(Status::Words(WordsCause::Value)),
    }
}

/// The choice that the text names.
fn choice_in(alloc: Global, text: &str) -> Result<Option<NumberChoice>, AllocError>
    ensures { IfOk result (λ found.
        MatchOption found ((choice : NumberChoice) → ¬ NamesChoice text.now choice) (NamesChoice text.now)) }
{
    if text == "exact" {
        return Ok(Some(NumberChoice::Exact));
    }
    if let Some(n) = denominator_behind(alloc, "grid:", text)? {
        return Ok(Some(NumberChoice::Grid(n)));
    }
    if let Some(n) = denominator_behind(alloc, "root2:", text)? {
        return Ok(Some(NumberChoice::RootTwo(n)));
    }
    if let Some(n) = denominator_behind(alloc, "root3:", text)? {
        return Ok(Some(NumberChoice::RootThree(n)));
    }
    Ok(None)
}

/// The denominator that stands behind this name, if the text is that.
fn denominator_behind(
    alloc: Global,
    name: &str,
    text: &str,
) -> Result<Option<Denominator>, AllocError>
    ensures { IfOk result (λ found.
        MatchOption found ((n : Denominator) → text.now ≢ name.now ++ decimal n.value)
        (λ n. text.now ≡ name.now ++ decimal n.value)) }
{
    match text.strip_prefix(name) {
        Some(digits) => denominator_in(alloc, digits),
        None => Ok(None),
    }
}

/// The denominator that the text spells in digits, with no zero in front.
fn denominator_in(alloc: Global, text: &str) -> Result<Option<Denominator>, AllocError>
    ensures { IfOk result (λ found.
        MatchOption found ((n : Denominator) → text.now ≢ decimal n.value)
        (λ n. text.now ≡ decimal n.value)) }
{
    match number_in(alloc, text)? {
        Some(number) => Ok(Denominator::new(number)),
        None => Ok(None),
    }
}

/// The number below 2^32 that the text spells in digits, with no zero in front.
pub fn number_in(alloc: Global, text: &str) -> Result<Option<u32>, AllocError>
    ensures { IfOk result (λ number. number ≡ id_in_text text.now) }
{
    match NumberText::read(alloc, text) {
        Ok(number) => Ok(number.as_str().parse::<u32>().ok()),
        Err(NumberReadFault::NoNumber) => Ok(None),
        Err(NumberReadFault::Memory(error)) => Err(error),
    }
}
