// The words of the command line, read by the crate `clap`.
ghost use Rattle.std.specs.Prelude.{◌≡◌, ◌≢◌, ◌≤◌, ◌<◌, ◌⊎◌, ℕ, [], IfOk, IfErr, MatchOption, false, option_map};
ghost use Rattle.clap.specs.Words.{app_of, found_of, rows_of, shape_of, subcommand_rows_of};
ghost use Rattle.clap.specs.declared.builder.command.Command.TheViews.{out-Command};
ghost use Rattle.fold_commands.specs.Words.{texts, app, faults, found, as_listed, subcommand_shape, said_in, IsConversion, Mean, MeanShow, MeanConvert, MeanRepair, MeanFold, MeanJudge, MeanDrill, MeansNone, NamesCount, NamesFaces, NamesFlat, NamesFormat, NamesNothing, NamesNumber, Says, AreWordsOf, AreRefused};

use crate::number_option::{NumberChoice, number_in, number_of};
use crate::status::{Status, WordsCause};
use clap::{Arg, ArgAction, ArgMatches};
use drawing_repair::{Faces, Flat};
use std::alloc::{AllocError, Global};

/// What the words ask for.
#[derive(Clone, Copy, Debug, PartialEq, Eq)]
pub enum Command {
    /// Prints the whole input in the printed form of its format.
    Show(ShowOptions),
    /// Prints a drawing in the other or the same format: of a FOLD file one frame with all that it
    /// inherits.
    Convert(ConvertOptions),
    /// Prints the segments of CP text, or the edges of a frame, as a drawing: its vertices, the pieces
    /// between them, and its faces.
    Repair(RepairOptions),
    /// Prints the folded form of a frame that is a sheet.
    Fold(FoldOptions),
    /// Prints whether a frame that is a sheet folds flat with its faces ordered as they are.
    Judge(JudgeOptions),
    /// Judges a strip of squares that is folded to and fro, which it makes itself: a large input from a
    /// number.
    Drill(DrillOptions),
}

#[derive(Clone, Copy, Debug, PartialEq, Eq)]
pub struct ShowOptions {
    pub from: Format,
}

#[derive(Clone, Copy, Debug, PartialEq, Eq)]
pub enum ConvertOptions {
    /// A frame of a FOLD file, to either format.
    Frame { frame: u32, to: Format },
    /// CP text, to CP text.
    Lines,
    /// CP text, to a FOLD file with coordinates read by this choice.
    Drawing { number: NumberChoice },
}

#[derive(Clone, Copy, Debug, PartialEq, Eq)]
pub struct RepairOptions {
    pub from: Format,
    pub to: Format,
    /// The frame of a FOLD file.
    pub frame: u32,
    pub number: NumberChoice,
    pub flat: Flat,
    pub faces: Faces,
}

#[derive(Clone, Copy, Debug, PartialEq, Eq)]
pub struct FoldOptions {
    pub frame: u32,
    pub number: NumberChoice,
}

#[derive(Clone, Copy, Debug, PartialEq, Eq)]
pub struct JudgeOptions {
    pub frame: u32,
    pub number: NumberChoice,
    /// The frame whose orders of faces are taken.
    pub orders: u32,
}

#[derive(Clone, Copy, Debug, PartialEq, Eq)]
pub struct DrillOptions {
    /// How many squares the strip has, from 1 to 500.
    pub count: u32,
}

#[derive(Clone, Copy, Debug, PartialEq, Eq)]
pub enum Format {
    /// JSON.
    Fold,
    /// Lines of a kind and four coordinates.
    Cp,
}

impl Command {
    ghost use Rattle.std.specs.Prelude.{None, Some};
    ghost use Rattle.fold_commands.specs.Outcome.{format_of, strip_of};

    /// The format of what the command reads.
    pub fn format(&self) -> Format
        ensures { result ≡ format_of self.now }
    {
        match self {
            Command::Show(options) => options.from,
            Command::Convert(ConvertOptions::Frame { .. }) => Format::Fold,
            Command::Convert(ConvertOptions::Lines) => Format::Cp,
            Command::Convert(ConvertOptions::Drawing { .. }) => Format::Cp,
            Command::Repair(options) => options.from,
            Command::Fold(_) => Format::Fold,
            Command::Judge(_) => Format::Fold,
            Command::Drill(_) => Format::Fold,
        }
    }

    /// The squares of the strip whose text the command reads in place of the input, if it does.
    pub fn strip(&self) -> Option<u32>
        ensures { result ≡ strip_of self.now }
    {
        match self {
            Command::Show(_) => None,
            Command::Convert(_) => None,
            Command::Repair(_) => None,
            Command::Fold(_) => None,
            Command::Judge(_) => None,
            Command::Drill(options) => Some(options.count),
        }
    }
}

/// A command, and the options that it takes.
pub struct Entry {
    name: &'static str,
    options: &'static [&'static str],
}

static TABLE: [Entry; 6] = [
    Entry {
        name: "show",
        options: &["from"],
    },
    Entry {
        name: "convert",
        options: &["from", "to", "frame", "number"],
    },
    Entry {
        name: "repair",
        options: &["from", "to", "frame", "number", "flat", "faces"],
    },
    Entry {
        name: "fold",
        options: &["frame", "number"],
    },
    Entry {
        name: "judge",
        options: &["frame", "number", "orders"],
    },
    Entry {
        name: "drill",
        options: &["count"],
    },
];

/// The command that the words mean.
pub fn read_words(alloc: Global, words: &[String]) -> Result<Command, Status>
    ensures ok { IfOk result (AreWordsOf (texts words.now)) }
    ensures err { IfErr result (λ status.
        (status ≡ Status.Memory) ⊎ AreRefused (texts words.now) status) }
{
    let matches = matches_of(alloc, words)?;
    match matches.subcommand() {
        Some((name, options)) => command_of(alloc, name, options),
        None => Err(Status::Words(WordsCause::Refused)),
    }
}

/// What `clap` finds in the words.
fn matches_of<'a>(alloc: Global, words: &'a [String]) -> Result<ArgMatches<'a>, Status>
    ensures ok { IfOk result (λ matches. (faults (texts words.entry.now) ≡ [])
        × (subcommand_rows_of matches ≡ found (texts words.entry.now))) }
    ensures err { IfErr result (λ status. (status ≡ Status.Memory)
        ⊎ ((faults (texts words.entry.now) ≢ []) × (status ≡ Status.Words WordsCause.Refused))) }
{
    Ok(command_line(alloc)?.try_get_matches_from(words)?)
}

/// The table as `clap` takes it.
fn command_line<'a>(alloc: Global) -> Result<clap::Command<'a>, AllocError>
    ensures { IfOk result (λ line. app_of line ≡ app) }
{
    let mut line = clap::Command::new(alloc, "fold_program").no_binary_name(true);
    for entry in &TABLE {
        line = line.subcommand(subcommand(alloc, entry)?)?;
    }
    Ok(line)
}

fn subcommand<'a>(alloc: Global, entry: &Entry) -> Result<clap::Command<'a>, AllocError>
    ensures shape { IfOk result (λ command.
        shape_of command ≡ subcommand_shape (as_listed entry.now)) }
    ensures local { IfOk result (λ command. (out-Command command).has_globals ≡ false) }
{
    let mut command = clap::Command::new(alloc, entry.name);
    for name in entry.options {
        let option = Arg::new(alloc, name).long(name).action(ArgAction::Set);
        command = command.arg(option)?;
    }
    Ok(command)
}

/// The command with the options that were given.
fn command_of(alloc: Global, name: &str, options: &ArgMatches<'_>) -> Result<Command, Status>
    ensures ok { IfOk result (Mean name.now (said_in (rows_of (found_of options.now)))) }
    ensures err { IfErr result
        (MeansNone (Mean name.now (said_in (rows_of (found_of options.now))))) }
{
    if name == "show" {
        Ok(Command::Show(show_options(options)?))
    } else if name == "convert" {
        Ok(Command::Convert(convert_options(alloc, options)?))
    } else if name == "repair" {
        Ok(Command::Repair(repair_options(alloc, options)?))
    } else if name == "fold" {
        Ok(Command::Fold(fold_options(alloc, options)?))
    } else if name == "judge" {
        Ok(Command::Judge(judge_options(alloc, options)?))
    } else if name == "drill" {
        Ok(Command::Drill(drill_options(alloc, options)?))
    } else {
        // `clap` finds no command but those of the table.
        Err(Status::Words(WordsCause::Value))
    }
}

fn show_options(options: &ArgMatches<'_>) -> Result<ShowOptions, Status>
    ensures ok { IfOk result (MeanShow (said_in (rows_of (found_of options.now)))) }
    ensures err { IfErr result
        (MeansNone (MeanShow (said_in (rows_of (found_of options.now))))) }
{
    let from = format_of(options.get_str("from"))?;
    Ok(ShowOptions { from })
}

fn convert_options(alloc: Global, options: &ArgMatches<'_>) -> Result<ConvertOptions, Status>
    ensures ok { IfOk result (MeanConvert (said_in (rows_of (found_of options.now)))) }
    ensures err { IfErr result
        (MeansNone (MeanConvert (said_in (rows_of (found_of options.now))))) }
{
    let from = format_of(options.get_str("from"))?;
    let to = format_of(options.get_str("to"))?;
    let frame = frame_of(alloc, options.get_str("frame"), 0)?;
    let number = number_of(alloc, options.get_str("number"))?;
    Ok(conversion(from, to, frame, number))
}

/// The conversion between these formats. A frame's number says nothing of lines, and the choice of
/// numbers nothing where none are read.
fn conversion(from: Format, to: Format, frame: u32, number: NumberChoice) -> ConvertOptions
    ensures { IsConversion from to frame number result }
{
    match (from, to) {
        (Format::Fold, to) => ConvertOptions::Frame { frame, to },
        (Format::Cp, Format::Cp) => ConvertOptions::Lines,
        (Format::Cp, Format::Fold) => ConvertOptions::Drawing { number },
    }
}

fn repair_options(alloc: Global, options: &ArgMatches<'_>) -> Result<RepairOptions, Status>
    ensures ok { IfOk result (MeanRepair (said_in (rows_of (found_of options.now)))) }
    ensures err { IfErr result
        (MeansNone (MeanRepair (said_in (rows_of (found_of options.now))))) }
{
    let from = format_of(options.get_str("from"))?;
    let to = format_of(options.get_str("to"))?;
    let frame = frame_of(alloc, options.get_str("frame"), 0)?;
    let number = number_of(alloc, options.get_str("number"))?;
    let flat = flat_of(options.get_str("flat"))?;
    let faces = faces_of(options.get_str("faces"))?;
    Ok(RepairOptions {
        from,
        to,
        frame,
        number,
        flat,
        faces,
    })
}

fn fold_options(alloc: Global, options: &ArgMatches<'_>) -> Result<FoldOptions, Status>
    ensures ok { IfOk result (MeanFold (said_in (rows_of (found_of options.now)))) }
    ensures err { IfErr result
        (MeansNone (MeanFold (said_in (rows_of (found_of options.now))))) }
{
    let frame = frame_of(alloc, options.get_str("frame"), 0)?;
    let number = number_of(alloc, options.get_str("number"))?;
    Ok(FoldOptions { frame, number })
}

/// The orders are those of the frame that is judged, unless another is named.
fn judge_options(alloc: Global, options: &ArgMatches<'_>) -> Result<JudgeOptions, Status>
    ensures ok { IfOk result (MeanJudge (said_in (rows_of (found_of options.now)))) }
    ensures err { IfErr result
        (MeansNone (MeanJudge (said_in (rows_of (found_of options.now))))) }
{
    let frame = frame_of(alloc, options.get_str("frame"), 0)?;
    let number = number_of(alloc, options.get_str("number"))?;
    let orders = frame_of(alloc, options.get_str("orders"), frame)?;
    Ok(JudgeOptions {
        frame,
        number,
        orders,
    })
}

fn drill_options(alloc: Global, options: &ArgMatches<'_>) -> Result<DrillOptions, Status>
    ensures ok { IfOk result (MeanDrill (said_in (rows_of (found_of options.now)))) }
    ensures err { IfErr result
        (MeansNone (MeanDrill (said_in (rows_of (found_of options.now))))) }
{
    let count = count_of(alloc, options.get_str("count"))?;
    Ok(DrillOptions { count })
}

/// The number of squares that an option says, and 100 where it isn't given.
fn count_of(alloc: Global, said: Option<&str>) -> Result<u32, Status>
    ensures ok { IfOk result (Says NamesCount 100 (option_map (λ text. text.now) said.entry)) }
    ensures err { IfErr result
        (MeansNone (Says NamesCount 100 (option_map (λ text. text.now) said.entry))) }
{
    match said {
        None => Ok(100),
        Some(text) => count_in(alloc, text)?.ok_or(Status::Words(WordsCause::Value)),
    }
}

/// The number of squares that the text spells.
fn count_in(alloc: Global, text: &str) -> Result<Option<u32>, AllocError>
    ensures { IfOk result (λ found.
        MatchOption found ((count : ℕ) → ¬ NamesCount text.now count) (NamesCount text.now)) }
{
    match number_in(alloc, text)? {
        Some(number) => Ok(as_count(number)),
        None => Ok(None),
    }
}

/// The number, if it is one of squares.
fn as_count(number: u32) -> Option<u32>
    ensures { MatchOption result ((number ≡ 0) ⊎ (500 < number))
        (λ count. (count ≡ number) × (1 ≤ count) × (count ≤ 500)) }
{
    if number == 0 || number > 500 {
        return None;
    }
    Some(number)
}

/// What becomes of segments with the letter F: they are kept where the option isn't given.
fn flat_of(said: Option<&str>) -> Result<Flat, WordsCause>
    ensures ok { IfOk result (Says NamesFlat Flat.Keep (option_map (λ text. text.now) said.entry)) }
    ensures err { IfErr result
        (NamesNothing NamesFlat Flat.Keep (option_map (λ text. text.now) said.entry)) }
{
    match said {
        None => Ok(Flat::Keep),
        Some(text) => {
            if text == "keep" {
                Ok(Flat::Keep)
            } else if text == "drop" {
                Ok(Flat::Drop)
            } else {
                Err(WordsCause::Value)
            }
        }
    }
}

/// Whether faces are looked for, as they are where the option isn't given.
fn faces_of(said: Option<&str>) -> Result<Faces, WordsCause>
    ensures ok { IfOk result (Says NamesFaces Faces.Find (option_map (λ text. text.now) said.entry)) }
    ensures err { IfErr result
        (NamesNothing NamesFaces Faces.Find (option_map (λ text. text.now) said.entry)) }
{
    match said {
        None => Ok(Faces::Find),
        Some(text) => {
            if text == "yes" {
                Ok(Faces::Find)
            } else if text == "no" {
                Ok(Faces::Skip)
            } else {
                Err(WordsCause::Value)
            }
        }
    }
}

/// The number of a frame that an option says, and the default where it isn't given.
fn frame_of(alloc: Global, said: Option<&str>, default: u32) -> Result<u32, Status>
    ensures ok { IfOk result (Says NamesNumber default (option_map (λ text. text.now) said.entry)) }
    ensures err { IfErr result
        (MeansNone (Says NamesNumber default (option_map (λ text. text.now) said.entry))) }
{
    match said {
        None => Ok(default),
        Some(text) => number_in(alloc, text)?.ok_or(Status::Words(WordsCause::Value)),
    }
}

/// The format that an option says, and FOLD where it isn't given.
fn format_of(said: Option<&str>) -> Result<Format, WordsCause>
    ensures ok { IfOk result
        (Says NamesFormat Format.Fold (option_map (λ text. text.now) said.entry)) }
    ensures err { IfErr result (λ cause. (cause ≡ WordsCause.Value)
        × ((format : Format) →
        ¬ Says NamesFormat Format.Fold (option_map (λ text. text.now) said.entry) format)) }
{
    match said {
        None => Ok(Format::Fold),
        Some(text) => {
            if text == "fold" {
                Ok(Format::Fold)
            } else if text == "cp" {
                Ok(Format::Cp)
            } else {
                Err(WordsCause::Value)
            }
        }
    }
}
