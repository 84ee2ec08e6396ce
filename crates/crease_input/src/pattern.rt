// The text of a crease pattern's file.
ghost use Rattle.std.specs.Prelude.{◌≡◌, ◌++◌, ◌∷◌, [], map, IfOk, OnOk, None, string_bytes, ℕ, List as Items};
ghost use Rattle.std.specs.Fmt.{decimal, signed_decimal};
ghost use Rattle.std.specs.List.{AllByRecursion, AllZip, join_with_byte};
ghost use Rattle.fold_keys.specs.declared.value.Entry.{Entry as AnyEntry};
ghost use Rattle.json_tree.specs.PrintedForm.{comma_before};
ghost use Rattle.number_rules.specs.ExactText.{AreShort, exact_text_of, root_mark};
ghost use Rattle.number_rules.specs.Nine.{IsNineText};
ghost use Rattle.crease_input.specs.Files.{HasShortParts, IsFileable, AreNineTexts, AreVertexEntries, edge_entries};
ghost use Rattle.crease_input.specs.Pattern.{IsPatternText, entries_behind, printed_exact, printed_ids, printed_letter, printed_point};

use crate::texts::{are_nine_decimals, spelled};
use exact_number::Exact;
use fold_base::{Letter, Text};
use itoa::Buffer;
use number_rules::{nine_texts, print9};
use scaled_plane::{Edge, Ends, Pair};
use std::alloc::{AllocError, Global};

/// The comma before each element but the first.
fn put_comma(out: &mut String, place: usize) -> Result<(), AllocError>
    ensures { OnOk result (string_bytes out.new ≡ string_bytes out.old ++ comma_before place) }
{
    if place == 0 { Ok(()) } else { out.push(',') }
}

/// A number, rounded to nine decimals.
fn put_nine<N: Exact>(out: &mut String, value: N) -> Result<(), AllocError>
    requires { AreShort (N.parts value) }
    ensures { OnOk result ((text : Items ℕ) × IsNineText N.ROOT (N.parts value) text
        × (string_bytes out.new ≡ string_bytes out.old ++ text)) }
{
    nine_texts();
    let mut room = [0u8; 48];
    let count = print9(value, &mut room);
    out.push_str(spelled(&room[..count]))?;
    Ok(())
}

fn put_point<N: Exact>(out: &mut String, point: Pair<N>) -> Result<(), AllocError>
    requires { HasShortParts N.parts point }
    ensures { OnOk result ((texts : Items ℕ × Items ℕ) × AreNineTexts N.ROOT N.parts point texts
        × (string_bytes out.new ≡ string_bytes out.old ++ printed_point texts)) }
{
    out.push('[')?;
    put_nine(out, point.x)?;
    out.push(',')?;
    put_nine(out, point.y)?;
    out.push(']')?;
    Ok(())
}

/// Points, each coordinate rounded to nine decimals.
fn put_points<N: Exact>(out: &mut String, coords: &[Pair<N>]) -> Result<(), AllocError>
    requires { AllByRecursion (HasShortParts N.parts) coords.now }
    ensures { OnOk result ((texts : Items (Items ℕ × Items ℕ))
        × AllZip (AreNineTexts N.ROOT N.parts) coords.now texts
        × (string_bytes out.new ≡ string_bytes out.old ++ join_with_byte 44 (map printed_point texts))) }
{
    for (place, point) in coords.iter().enumerate() {
        put_comma(out, place)?;
        put_point(out, *point)?;
    }
    Ok(())
}

fn put_whole(out: &mut String, number: i128) -> Result<(), AllocError>
    ensures { OnOk result (string_bytes out.new ≡ string_bytes out.old ++ signed_decimal number) }
{
    let mut digits = Buffer::new();
    out.push_str(digits.format(number))
}

/// The mark of the root of 3.
fn put_mark<N: Exact>(out: &mut String) -> Result<(), AllocError>
    ensures { OnOk result (string_bytes out.new ≡ string_bytes out.old ++ root_mark N.ROOT) }
{
    if N::ROOT == 3 {
        out.push_str(",3")
    } else {
        Ok(())
    }
}

/// The exact text of a number.
fn put_exact<N: Exact>(out: &mut String, value: N) -> Result<(), AllocError>
    ensures { OnOk result (string_bytes out.new ≡ string_bytes out.old ++ exact_text_of N.ROOT (N.parts value)) }
{
    let (a, b, q) = value.parts();
    put_whole(out, a)?;
    out.push(',')?;
    put_whole(out, b)?;
    out.push(',')?;
    put_whole(out, q)?;
    put_mark::<N>(out)?;
    Ok(())
}

fn put_exact_point<N: Exact>(out: &mut String, point: Pair<N>) -> Result<(), AllocError>
    ensures { OnOk result (string_bytes out.new ≡ string_bytes out.old ++ printed_exact N.ROOT N.parts point) }
{
    out.push_str("[\"")?;
    put_exact(out, point.x)?;
    out.push_str("\",\"")?;
    put_exact(out, point.y)?;
    out.push_str("\"]")
}

/// Points by the exact texts of their coordinates.
fn put_exact_points<N: Exact>(out: &mut String, coords: &[Pair<N>]) -> Result<(), AllocError>
    ensures { OnOk result (string_bytes out.new
        ≡ string_bytes out.old ++ join_with_byte 44 (map (printed_exact N.ROOT N.parts) coords.now)) }
{
    for (place, point) in coords.iter().enumerate() {
        put_comma(out, place)?;
        put_exact_point(out, *point)?;
    }
    Ok(())
}

/// The entries of the vertices: their nine decimals, and their exact texts where rounding changes one of them.
fn put_vertices<N: Exact>(out: &mut String, coords: &[Pair<N>]) -> Result<(), AllocError>
    requires { AllByRecursion (HasShortParts N.parts) coords.now }
    ensures { OnOk result ((entries : Items AnyEntry) × AreVertexEntries N.ROOT N.parts coords.now entries
        × (string_bytes out.new ≡ string_bytes out.old ++ entries_behind entries)) }
{
    out.push_str(",\"vertices_coords\":[")?;
    put_points(out, coords)?;
    out.push(']')?;
    if are_nine_decimals(coords) {
        return Ok(());
    }
    out.push_str(",\"fx:vertices_coords\":[")?;
    put_exact_points(out, coords)?;
    out.push(']')?;
    Ok(())
}

fn put_id(out: &mut String, id: u32) -> Result<(), AllocError>
    ensures { OnOk result (string_bytes out.new ≡ string_bytes out.old ++ decimal id) }
{
    let mut digits = Buffer::new();
    out.push_str(digits.format(id))
}

/// The two ends of an edge.
fn put_ids(out: &mut String, edge: Edge) -> Result<(), AllocError>
    ensures { OnOk result (string_bytes out.new ≡ string_bytes out.old ++ printed_ids edge) }
{
    out.push('[')?;
    put_id(out, edge.from)?;
    out.push(',')?;
    put_id(out, edge.to)?;
    out.push(']')
}

fn put_all_ids(out: &mut String, edges: &[Edge]) -> Result<(), AllocError>
    ensures { OnOk result (string_bytes out.new
        ≡ string_bytes out.old ++ join_with_byte 44 (map printed_ids edges.now)) }
{
    for (place, edge) in edges.iter().enumerate() {
        put_comma(out, place)?;
        put_ids(out, *edge)?;
    }
    Ok(())
}

/// A letter as a word.
fn word_of(letter: Letter) -> &'static str
    ensures { result.now ≡ printed_letter letter }
{
    match letter {
        Letter::Border => "\"B\"",
        Letter::Mountain => "\"M\"",
        Letter::Valley => "\"V\"",
        Letter::Flat => "\"F\"",
        Letter::Unassigned => "\"U\"",
        Letter::Cut => "\"C\"",
        Letter::Join => "\"J\"",
    }
}

fn put_all_letters(out: &mut String, edges: &[Edge]) -> Result<(), AllocError>
    ensures { OnOk result (string_bytes out.new
        ≡ string_bytes out.old ++ join_with_byte 44 (map (λ edge. printed_letter edge.letter) edges.now)) }
{
    for (place, edge) in edges.iter().enumerate() {
        put_comma(out, place)?;
        out.push_str(word_of(edge.letter))?;
    }
    Ok(())
}

/// The entries of the edges.
fn put_edges(out: &mut String, edges: &[Edge]) -> Result<(), AllocError>
    ensures { OnOk result (string_bytes out.new ≡ string_bytes out.old ++ entries_behind (edge_entries edges.now)) }
{
    out.push_str(",\"edges_vertices\":[")?;
    put_all_ids(out, edges)?;
    out.push(']')?;
    out.push_str(",\"edges_assignment\":[")?;
    put_all_letters(out, edges)?;
    out.push(']')?;
    Ok(())
}

/// The text of the file of a crease pattern without faces, in a line. It is put out as it is made, and no file is built.
pub fn pattern_text<N: Exact>(alloc: Global, ends: &Ends<N>) -> Result<Text, AllocError>
    requires { IsFileable N.parts ends.now None None }
    ensures { IfOk result (IsPatternText N.ROOT N.parts ends.now) }
{
    let mut out = String::new(alloc);
    out.push_str(
        "{\"file_spec\":1.2,\"file_creator\":\"fold_program\",\"frame_classes\":[\"creasePattern\"]",
    )?;
    put_vertices(&mut out, ends.coords.as_slice())?;
    put_edges(&mut out, ends.edges.as_slice())?;
    out.push_str("}\n")?;
    Ok(Text::from_string(out))
}
