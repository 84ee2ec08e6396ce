ghost use Rattle.std.specs.Prelude.{◌≡◌, ◌<◌, ◌++◌, IfOk, OnOk, map, string_bytes, IsUtf8};
ghost use Rattle.std.specs.Char.{digit_char};
ghost use Rattle.std.specs.List.{AllByRecursion, flat_map, join_with_byte};
ghost use Rattle.std.specs.Str.{chars};
ghost use Rattle.json_tree.specs.Spells.{Spells};
ghost use Rattle.json_tree.specs.Tree.{HasValidTexts, MemberHasValidTexts, IsProper};
ghost use Rattle.json_tree.specs.declared.tree.Json.{Json};
ghost use Rattle.json_tree.specs.PrintedForm.{printed_form, printed_member, printed_word, printed_character, printed_control, comma_before};

use crate::tree::{Json, Member};
use fold_base::Text;
use std::alloc::{AllocError, Global};

/// The printed form of the tree.
pub fn print(alloc: Global, tree: &Json) -> Result<Text, AllocError>
    ensures printed { IfOk result (λ text. text ≡ printed_form tree.now) }
    ensures spells { IfOk result (λ text. IsProper tree.now → Spells text tree.now) }
    ensures texts { OnOk result (HasValidTexts tree.now) }
{
    let mut out = String::new(alloc);
    put_value(&mut out, tree)?;
    Ok(Text::from_string(out))
}

/// The printed form of a proper tree spells that tree.
pub fn printed_form_spells()
    ensures { (tree : Json) → HasValidTexts tree → IsProper tree → Spells (printed_form tree) tree }
{}

#[cycle(printing)]
fn put_value(out: &mut String, tree: &Json) -> Result<(), AllocError>
    ensures printed { OnOk result (string_bytes out.new ≡ string_bytes out.old ++ printed_form tree.now) }
    ensures texts { OnOk result (HasValidTexts tree.now) }
{
    match tree {
        Json::Null => out.push_str("null"),
        Json::Truth(true) => out.push_str("true"),
        Json::Truth(false) => out.push_str("false"),
        Json::Number(text) => out.push_str(text.as_str()),
        Json::Word(word) => put_word(out, word),
        Json::List(items) => {
            out.push('[')?;
            put_items(out, items.as_slice())?;
            out.push(']')
        }
        Json::Object(members) => {
            out.push('{')?;
            put_members(out, members.as_slice())?;
            out.push('}')
        }
    }
}

#[cycle(printing)]
fn put_items(out: &mut String, items: &[Json]) -> Result<(), AllocError>
    ensures printed { OnOk result
        (string_bytes out.new ≡ string_bytes out.old ++ join_with_byte 44 (map printed_form items.now)) }
    ensures texts { OnOk result (AllByRecursion HasValidTexts items.now) }
{
    for (place, item) in items.iter().enumerate() {
        put_comma(out, place)?;
        put_value(out, item)?;
    }
    Ok(())
}

#[cycle(printing)]
fn put_members(out: &mut String, members: &[Member]) -> Result<(), AllocError>
    ensures printed { OnOk result
        (string_bytes out.new ≡ string_bytes out.old ++ join_with_byte 44 (map printed_member members.now)) }
    ensures texts { OnOk result (AllByRecursion MemberHasValidTexts members.now) }
{
    for (place, member) in members.iter().enumerate() {
        put_comma(out, place)?;
        put_member(out, member)?;
    }
    Ok(())
}

#[cycle(printing)]
fn put_member(out: &mut String, member: &Member) -> Result<(), AllocError>
    ensures printed { OnOk result (string_bytes out.new ≡ string_bytes out.old ++ printed_member member.now) }
    ensures texts { OnOk result (MemberHasValidTexts member.now) }
{
    put_word(out, &member.key)?;
    out.push(':')?;
    put_value(out, &member.value)
}

/// The comma before each element but the first.
fn put_comma(out: &mut String, place: usize) -> Result<(), AllocError>
    ensures { OnOk result (string_bytes out.new ≡ string_bytes out.old ++ comma_before place) }
{
    if place == 0 { Ok(()) } else { out.push(',') }
}

fn put_word(out: &mut String, word: &Text) -> Result<(), AllocError>
    ensures utf8 { OnOk result (IsUtf8 word.now) }
    ensures printed { OnOk result (string_bytes out.new ≡ string_bytes out.old ++ printed_word word.now) }
{
    out.push('"')?;
    put_characters(out, word.as_str())?;
    out.push('"')
}

fn put_characters(out: &mut String, word: &str) -> Result<(), AllocError>
    ensures { OnOk result (string_bytes out.new ≡ string_bytes out.old ++ flat_map printed_character (chars word.now)) }
{
    for character in word.chars() {
        put_character(out, character)?;
    }
    Ok(())
}

fn put_character(out: &mut String, character: char) -> Result<(), AllocError>
    ensures { OnOk result (string_bytes out.new ≡ string_bytes out.old ++ printed_character character) }
{
    match character {
        '"' => out.push_str("\\\""),
        '\\' => out.push_str("\\\\"),
        '\u{8}' => out.push_str("\\b"),
        '\u{c}' => out.push_str("\\f"),
        '\n' => out.push_str("\\n"),
        '\r' => out.push_str("\\r"),
        '\t' => out.push_str("\\t"),
        '\0'..='\u{1f}' => put_control(out, character),
        _ => out.push(character),
    }
}

/// A control character by its code.
fn put_control(out: &mut String, character: char) -> Result<(), AllocError>
    requires { character < 32 }
    ensures { OnOk result (string_bytes out.new ≡ string_bytes out.old ++ printed_control character) }
{
    let code = u32::from(character);
    out.push_str("\\u00")?;
    out.push(hexadecimal_digit(code / 16))?;
    out.push(hexadecimal_digit(code % 16))
}

fn hexadecimal_digit(digit: u32) -> char
    requires { digit < 16 }
    ensures value { result ≡ digit_char digit }
    ensures ascii { result < 128 }
{
    char::from_digit(digit, 16).unwrap()
}
