// What `convert` does.
ghost use Rattle.std.specs.Prelude.{◌≡◌, ◌≤◌, None, [], ◌∷◌, ◌++◌, filter, All, IfOk, OnOk};
ghost use Rattle.fold_keys.specs.Writable.{IsWritable, file_of};
ghost use Rattle.fold_frames.specs.Answers.{IsEffective};
ghost use Rattle.fold_frames.specs.Inherits.{entries_at};
ghost use Rattle.fold_frames.specs.Counts.{misfit_in_effect};
ghost use Rattle.frame_lines.specs.Lines.{HasLines};
ghost use Rattle.fold_commands.specs.declared.words.Command.TheVariants.{Convert};
ghost use Rattle.fold_commands.specs.declared.words.Format.TheVariants.{Fold};
ghost use Rattle.fold_commands.specs.Steps.{Follows, Steps};
ghost use Rattle.fold_commands.specs.Outcome.{Converts, ConvertsFile, ConvertsFrame, ConvertsTree, LacksLines, WritesFrame, WritesLines, format_of, HasCounts, HasFormat, HasNoFrame, HasUnevenLists, IsSound, IsSoundTree, is_of_file, of_file, with_frame};

use crate::act::read_file;
use crate::draw::draw;
use crate::drawing::line_of_file;
use crate::input::Input;
use crate::status::Status;
use crate::words::{ConvertOptions, Format};
use cp_lines::{CpLine, print_cp};
use fold_base::{List, Text};
use fold_frames::{Counts, Effective, effective};
use fold_keys::{Entry, FoldFile, Frame, copy_value, writable_entries};
use frame_lines::frame_lines;
use json_tree::Json;
use std::alloc::{AllocError, Global};

/// The drawing in another format, or in the same.
pub fn convert(alloc: Global, options: &ConvertOptions, input: Input) -> Result<Text, Status>
    requires format { HasFormat (format_of (Convert options.now)) input }
    requires sound { IsSound input }
    ensures { Follows (Converts options.now input) result }
{
    match options {
        ConvertOptions::Frame { frame, to } => match input {
            Input::Fold(tree) => convert_tree(alloc, *to, *frame, tree),
            Input::Cp(_) => unreachable!(),
        },
        ConvertOptions::Lines => match input {
            Input::Fold(_) => unreachable!(),
            Input::Cp(lines) => Ok(print_cp(alloc, &lines)?),
        },
        ConvertOptions::Drawing { number } => match input {
            Input::Fold(_) => unreachable!(),
            Input::Cp(lines) => draw(alloc, *number, lines),
        },
    }
}

/// FOLD's keys, and then the frame of this number.
fn convert_tree(alloc: Global, to: Format, number: u32, tree: Json) -> Result<Text, Status>
    requires { IsSoundTree tree }
    ensures { Follows (ConvertsTree to number tree) result }
{
    let file = read_file(alloc, tree)?;
    convert_file(alloc, to, number, &file)
}

fn convert_file(alloc: Global, to: Format, number: u32, file: &FoldFile) -> Result<Text, Status>
    requires { IsWritable file.now }
    ensures { Follows (ConvertsFile to number file.now) result }
{
    let frame = effective_frame(alloc, file, number)?;
    convert_frame(alloc, to, file, &frame)
}

fn convert_frame(
    alloc: Global,
    to: Format,
    file: &FoldFile,
    frame: &Effective,
) -> Result<Text, Status>
    requires { IsWritable file.now }
    ensures { Follows (ConvertsFrame to file.now frame.now) result }
{
    counts_of(alloc, frame)?;
    match to {
        Format::Fold => write_frame(alloc, file, frame),
        Format::Cp => write_lines(alloc, frame),
    }
}

/// The file with this frame in place of all its frames, in a line.
fn write_frame(alloc: Global, file: &FoldFile, frame: &Effective) -> Result<Text, Status>
    requires { IsWritable file.now }
    ensures { Follows (WritesFrame Fold file.now frame.now) result }
{
    let made = with_frame(alloc, file, frame)?;
    Ok(line_of_file(alloc, &made)?)
}

/// A line for each edge of the frame.
fn write_lines(alloc: Global, frame: &Effective) -> Result<Text, Status>
    requires { misfit_in_effect frame.now ≡ None }
    ensures { Follows (WritesLines frame.now) result }
{
    let lines = lines_of(alloc, frame)?;
    Ok(print_cp(alloc, &lines)?)
}

/// The lines of the frame's edges, or why it has none.
fn lines_of(alloc: Global, frame: &Effective) -> Result<List<CpLine>, Status>
    requires { misfit_in_effect frame.now ≡ None }
    ensures lines { Steps (LacksLines frame.now) (HasLines frame.now.entries) result }
    ensures kinds { IfOk result (All (λ line. line.kind ≤ 4)) }
{
    Ok(frame_lines(alloc, frame)?)
}

/// The frame of this number with all that it inherits, or why it has none.
pub fn effective_frame(alloc: Global, file: &FoldFile, number: u32) -> Result<Effective, Status>
    requires { IsWritable file.now }
    ensures { Steps (HasNoFrame file.now number) (IsEffective file.now.frames number) result }
{
    Ok(effective(alloc, file, number)?)
}

/// How many vertices, edges and faces the frame has, or where its lists don't agree.
pub fn counts_of(alloc: Global, frame: &Effective) -> Result<Counts, Status>
    ensures { Steps (HasUnevenLists frame.now) (HasCounts frame.now) result }
{
    Ok(frame.counts(alloc)?)
}

/// The file that says the same of itself and has this frame alone.
fn with_frame(alloc: Global, file: &FoldFile, frame: &Effective) -> Result<FoldFile, AllocError>
    requires { IsWritable file.now }
    ensures made { IfOk result (λ made. made ≡ with_frame file.now frame.now) }
    ensures writable { IfOk result IsWritable }
{
    writable_entries();
    let mut entries = of_file(alloc, file)?;
    push_copies(alloc, &mut entries, frame.entries())?;
    of_entries(alloc, entries)
}

fn push_copies(alloc: Global, entries: &mut List<Entry>, more: &[Entry]) -> Result<(), AllocError>
    ensures { OnOk result (entries.new ≡ entries.old ++ more.now) }
{
    for entry in more {
        entries
            .push(copy_entry(alloc, entry)?)
            .map_err(AllocError::from)?;
    }
    Ok(())
}

fn of_entries(alloc: Global, entries: List<Entry>) -> Result<FoldFile, AllocError>
    ensures { IfOk result (λ file. file ≡ file_of entries) }
{
    let mut frames = List::with_room(alloc, 1)?;
    frames.push(Frame { entries }).map_err(AllocError::from)?;
    Ok(FoldFile { frames })
}

/// What the file says of itself, without its frames.
fn of_file(alloc: Global, file: &FoldFile) -> Result<List<Entry>, AllocError>
    ensures { IfOk result (λ entries. entries ≡ of_file file.now) }
{
    let mut entries = List::new(alloc);
    for entry in first_entries(file) {
        push_of_file(alloc, &mut entries, entry)?;
    }
    Ok(entries)
}

fn push_of_file(alloc: Global, entries: &mut List<Entry>, entry: &Entry) -> Result<(), AllocError>
    ensures { OnOk result (entries.new
        ≡ entries.old ++ filter (λ e. is_of_file e.key) (entry.now ∷ [])) }
{
    if is_of_file(entry.key.bytes()) {
        entries
            .push(copy_entry(alloc, entry)?)
            .map_err(AllocError::from)?;
    }
    Ok(())
}

fn first_entries(file: &FoldFile) -> &[Entry]
    ensures { result.now ≡ entries_at file.now.frames 0 }
{
    match file.frames.as_slice() {
        [first, ..] => first.entries.as_slice(),
        [] => &[],
    }
}

fn copy_entry(alloc: Global, entry: &Entry) -> Result<Entry, AllocError>
    ensures { IfOk result (λ made. made ≡ entry.now) }
{
    let key = entry.key.copy(alloc)?;
    let value = copy_value(alloc, &entry.value)?;
    Ok(Entry { key, value })
}

/// Whether the key is one of the file, and not that of its frames.
fn is_of_file(key: &[u8]) -> bool
    ensures { result ≡ is_of_file key.now }
{
    key.starts_with(b"file_".as_slice()) && key != b"file_frames".as_slice()
}
