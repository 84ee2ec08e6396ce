// What the program ends with.
ghost use Rattle.std.specs.Prelude.{◌≡◌};
ghost use Rattle.fold_commands.specs.Notes.{axis_name, counted_name, stage_name, unread_words};
ghost use Rattle.fold_commands.specs.Status.{of_stage};

use crate::messages::{CrossingWords, FlawWords};
use clap::error::ErrorKind;
use cp_lines::{CpFault, CpReadFault};
use crease_input::{Axis, Counted, InputFault};
use drawing_repair::RepairFault;
use fold_base::{ReadFault, Text};
use fold_frames::FrameFault;
use fold_keys::{FoldFault, ShapeFault};
use folded_form::FormFault;
use frame_lines::LinesFault;
use json_read::{JsonFault, JsonReadFault};
use layer_judge::JudgeFault;
use layers::Crossing;
use number_rules::Unread;
use scaled_plane::SheetFlaw;
use std::alloc::AllocError;
use std::fmt;

/// How a run ended: [`Status::code`] is the exit status, and `Display` what is said of it.
#[derive(Debug, PartialEq, Eq, Drop)]
pub enum Status {
    /// The text that the words ask for was written whole.
    Done,
    /// The sheet doesn't fold flat, or its layers can't lie as they are ordered, and the line that says
    /// so was written whole.
    No(NoCause),
    Text(TextFault),
    Shape(ShapeCause),
    Sheet(SheetCause),
    Number(NumberCause),
    Words(WordsCause),
    /// The input can't be read to its end.
    Read,
    /// The output can't be written to its end.
    Write,
    Limit(Limit),
    /// Memory was refused. Nothing was written.
    Memory,
}

/// Why the answer is no.
#[derive(Clone, Copy, Debug, PartialEq, Eq)]
pub enum NoCause {
    /// Faces that are walked round don't come back to where they began. This is the least edge whose
    /// two faces disagree.
    Unclosed { edge: u32 },
    /// Layers cross, and this is the first crossing.
    Crossing(Crossing),
}

/// Where the input stops being of its format.
#[derive(Clone, Copy, Debug, PartialEq, Eq)]
pub enum TextFault {
    Json(JsonFault),
    Cp(CpFault),
}

/// Why what was read isn't as the command asks for.
#[derive(Debug, PartialEq, Eq, Drop)]
pub enum ShapeCause {
    /// What stands at a key of FOLD isn't of the key's kind, or the lists of a frame don't agree.
    Key(ShapeFault),
    /// There is no frame of this number.
    NoFrame { frame: u32 },
    /// This frame inherits from one that isn't there.
    ParentRange { frame: u32 },
    /// Of the frames that are met when parents are followed, this is the first that is met again.
    ParentLoop { frame: u32 },
    /// The frame with the orders of faces has other faces than the frame that is chosen.
    OrdersDiffer,
    /// The third coordinate of this vertex isn't 0.
    NotFlat { vertex: u32 },
    /// A coordinate of this vertex isn't its exact number, rounded to nine decimals.
    Stale { vertex: u32 },
}

/// Why a frame is no sheet of the kind that the command asks for.
#[derive(Debug, PartialEq, Eq, Drop)]
pub enum SheetCause {
    /// The frame lacks this key.
    Missing { key: Text },
    Check(SheetFlaw),
    /// The orders at these places say opposite things of two faces.
    OrderClash { first: u32, second: u32 },
    /// These two faces overlap, and no order says which is above.
    NoOrder { low: u32, high: u32 },
}

/// Why numbers can't be computed with.
#[derive(Clone, Copy, Debug, PartialEq, Eq)]
pub enum NumberCause {
    /// A coordinate of this vertex is no number by the rule. The ends of lines are told as vertices,
    /// two for each line.
    Unread {
        vertex: u32,
        axis: Axis,
        cause: Unread,
    },
    /// The coordinates of this vertex are too wide.
    TooWide {
        vertex: u32,
        stage: Stage,
    },
    /// The map of this face leaves the range of numbers, or else the place that it gives the vertex.
    NumberPast {
        face: u32,
        vertex: Option<u32>,
    },
}

/// Which coordinates are too wide.
#[derive(Clone, Copy, Debug, PartialEq, Eq)]
pub enum Stage {
    /// Those that were given.
    Input,
    /// Those of the vertices of a drawing.
    Drawn,
    /// Those of the folded vertices.
    Folded,
}

#[derive(Clone, Copy, Debug, PartialEq, Eq)]
pub enum WordsCause {
    /// They are the words of no command.
    Refused,
    /// An option has a value that it doesn't take.
    Value,
}

#[derive(Clone, Copy, Debug, PartialEq, Eq)]
pub enum Limit {
    /// The input has more than `MOST_BYTES` bytes.
    TooLong,
    /// There are more of these than are computed with.
    TooMany { what: Counted },
}

impl Status {
    ghost use Rattle.fold_commands.specs.Status.{code_of};

    /// The exit status of the process.
    pub fn code(&self) -> u8
        ensures { result ≡ code_of self.now }
    {
        match self {
            Status::Done => 0,
            Status::No(_) => 1,
            Status::Text(_) => 2,
            Status::Shape(_) => 3,
            Status::Sheet(_) => 4,
            Status::Number(_) => 5,
            Status::Words(_) => 6,
            Status::Read => 7,
            Status::Write => 8,
            Status::Limit(_) => 9,
            Status::Memory => 10,
        }
    }
}

impl From<AllocError> for Status {
    ghost use Rattle.fold_commands.specs.declared.status.Status.TheVariants.{Memory};

    ghost from_gives = { λ _ status. status ≡ Memory };

    fn from(_: AllocError) -> Status {
        Status::Memory
    }
}

impl From<ReadFault> for Status {
    ghost use Rattle.fold_commands.specs.Status.{of_read};

    ghost from_gives = { λ fault status. status ≡ of_read fault };

    fn from(fault: ReadFault) -> Status {
        match fault {
            ReadFault::Failed => Status::Read,
            ReadFault::TooLong => Status::Limit(Limit::TooLong),
            ReadFault::Memory(_) => Status::Memory,
        }
    }
}

impl From<JsonReadFault> for Status {
    ghost use Rattle.fold_commands.specs.Status.{of_json};

    ghost from_gives = { λ fault status. status ≡ of_json fault };

    fn from(fault: JsonReadFault) -> Status {
        match fault {
            JsonReadFault::Text(fault) => Status::Text(TextFault::Json(fault)),
            JsonReadFault::Memory(_) => Status::Memory,
        }
    }
}

impl From<CpReadFault> for Status {
    ghost use Rattle.fold_commands.specs.Status.{of_cp};

    ghost from_gives = { λ fault status. status ≡ of_cp fault };

    fn from(fault: CpReadFault) -> Status {
        match fault {
            CpReadFault::Text(fault) => Status::Text(TextFault::Cp(fault)),
            CpReadFault::Memory(_) => Status::Memory,
        }
    }
}

impl From<FoldFault> for Status {
    ghost use Rattle.fold_commands.specs.Status.{of_keys};

    ghost from_gives = { λ fault status. status ≡ of_keys fault };

    fn from(fault: FoldFault) -> Status {
        match fault {
            FoldFault::Shape(fault) => Status::Shape(ShapeCause::Key(fault)),
            FoldFault::Memory(_) => Status::Memory,
        }
    }
}

impl From<FrameFault> for Status {
    ghost use Rattle.fold_commands.specs.Status.{of_frame};

    ghost from_gives = { λ fault status. status ≡ of_frame fault };

    fn from(fault: FrameFault) -> Status {
        match fault {
            FrameFault::NoFrame { frame } => Status::Shape(ShapeCause::NoFrame { frame }),
            FrameFault::ParentRange { frame } => Status::Shape(ShapeCause::ParentRange { frame }),
            FrameFault::ParentLoop { frame } => Status::Shape(ShapeCause::ParentLoop { frame }),
            FrameFault::Memory(_) => Status::Memory,
        }
    }
}

impl From<LinesFault> for Status {
    ghost use Rattle.fold_commands.specs.Status.{of_lines};

    ghost from_gives = { λ fault status. status ≡ of_lines fault };

    fn from(fault: LinesFault) -> Status {
        match fault {
            LinesFault::Missing { key } => Status::Sheet(SheetCause::Missing { key }),
            LinesFault::NotFlat { vertex } => Status::Shape(ShapeCause::NotFlat { vertex }),
            LinesFault::Memory(_) => Status::Memory,
        }
    }
}

impl From<InputFault> for Status {
    ghost use Rattle.fold_commands.specs.Status.{of_input};

    ghost from_gives = { λ fault status. status ≡ of_input fault };

    fn from(fault: InputFault) -> Status {
        match fault {
            InputFault::Missing { key } => Status::Sheet(SheetCause::Missing { key }),
            InputFault::TooMany { what } => Status::Limit(Limit::TooMany { what }),
            InputFault::NotFlat { vertex } => Status::Shape(ShapeCause::NotFlat { vertex }),
            InputFault::Unread {
                vertex,
                axis,
                cause,
            } => Status::Number(NumberCause::Unread {
                vertex,
                axis,
                cause,
            }),
            InputFault::Stale { vertex } => Status::Shape(ShapeCause::Stale { vertex }),
            InputFault::Memory(_) => Status::Memory,
        }
    }
}

impl From<RepairFault> for Status {
    ghost use Rattle.fold_commands.specs.Status.{of_repair};

    ghost from_gives = { λ fault status. status ≡ of_repair fault };

    fn from(fault: RepairFault) -> Status {
        match fault {
            RepairFault::TooWide { vertex, stage } => Status::Number(NumberCause::TooWide {
                vertex,
                stage: of_stage(stage),
            }),
            RepairFault::TooMany => Status::Limit(Limit::TooMany {
                what: Counted::Vertices,
            }),
            RepairFault::Parted { vertex } => {
                Status::Sheet(SheetCause::Check(SheetFlaw::Parted { vertex }))
            }
            RepairFault::Memory(_) => Status::Memory,
        }
    }
}

fn of_stage(stage: drawing_repair::Stage) -> Stage
    ensures { result ≡ of_stage stage }
{
    match stage {
        drawing_repair::Stage::Input => Stage::Input,
        drawing_repair::Stage::Drawn => Stage::Drawn,
    }
}

impl From<FormFault> for Status {
    ghost use Rattle.fold_commands.specs.Status.{of_form};

    ghost from_gives = { λ fault status. status ≡ of_form fault };

    fn from(fault: FormFault) -> Status {
        match fault {
            FormFault::TooWide { vertex } => Status::Number(NumberCause::TooWide {
                vertex,
                stage: Stage::Input,
            }),
            FormFault::Flaw(flaw) => Status::Sheet(SheetCause::Check(flaw)),
            FormFault::NumberPast { face, vertex } => {
                Status::Number(NumberCause::NumberPast { face, vertex })
            }
            FormFault::Unclosed { edge } => Status::No(NoCause::Unclosed { edge }),
            FormFault::FoldedTooWide { vertex } => Status::Number(NumberCause::TooWide {
                vertex,
                stage: Stage::Folded,
            }),
            FormFault::Memory(_) => Status::Memory,
        }
    }
}

impl From<JudgeFault> for Status {
    ghost use Rattle.fold_commands.specs.Status.{of_judge};

    ghost from_gives = { λ fault status. status ≡ of_judge fault };

    fn from(fault: JudgeFault) -> Status {
        match fault {
            JudgeFault::OrderClash { first, second } => {
                Status::Sheet(SheetCause::OrderClash { first, second })
            }
            JudgeFault::NoOrder { low, high } => Status::Sheet(SheetCause::NoOrder { low, high }),
            JudgeFault::Memory(_) => Status::Memory,
        }
    }
}

impl From<clap::Error> for Status {
    ghost use Rattle.fold_commands.specs.Status.{IsOfWords};

    ghost from_gives = { λ error status. IsOfWords error status };

    fn from(error: clap::Error) -> Status {
        if error.kind() == ErrorKind::OutOfMemory {
            Status::Memory
        } else {
            Status::Words(WordsCause::Refused)
        }
    }
}

impl From<WordsCause> for Status {
    ghost use Rattle.fold_commands.specs.declared.status.Status.TheVariants.{Words};

    ghost from_gives = { λ cause status. status ≡ Words cause };

    fn from(cause: WordsCause) -> Status {
        Status::Words(cause)
    }
}

impl fmt::Display for Status {
    ghost use Rattle.std.specs.Prelude.{Some};
    ghost use Rattle.fold_commands.specs.Notes.{message};

    ghost output = { λ status. Some (message status) };

    fn fmt<W: fmt::Write>(&self, f: &mut fmt::Formatter<W>) -> fmt::Result {
        match self {
            Status::Done => f.write_str("done"),
            Status::No(cause) => write!(f, "{cause}"),
            Status::Text(fault) => write!(f, "{fault}"),
            Status::Shape(cause) => write!(f, "{cause}"),
            Status::Sheet(cause) => write!(f, "{cause}"),
            Status::Number(cause) => write!(f, "{cause}"),
            Status::Words(cause) => write!(f, "{cause}"),
            Status::Read => f.write_str("read failed"),
            Status::Write => f.write_str("write failed"),
            Status::Limit(limit) => write!(f, "{limit}"),
            Status::Memory => f.write_str("memory"),
        }
    }
}

impl fmt::Display for NoCause {
    ghost use Rattle.std.specs.Prelude.{Some};
    ghost use Rattle.fold_commands.specs.Crossings.{no_message};

    ghost output = { λ cause. Some (no_message cause) };

    fn fmt<W: fmt::Write>(&self, f: &mut fmt::Formatter<W>) -> fmt::Result {
        match self {
            NoCause::Unclosed { edge } => write!(f, "unclosed {edge}"),
            NoCause::Crossing(crossing) => {
                let words = CrossingWords {
                    crossing: *crossing,
                };
                write!(f, "{words}")
            }
        }
    }
}

impl std::error::Error for NoCause {}

impl fmt::Display for TextFault {
    ghost use Rattle.std.specs.Prelude.{Some};
    ghost use Rattle.fold_commands.specs.Notes.{text_message};

    ghost output = { λ fault. Some (text_message fault) };

    fn fmt<W: fmt::Write>(&self, f: &mut fmt::Formatter<W>) -> fmt::Result {
        match self {
            TextFault::Json(fault) => write!(f, "{fault}"),
            TextFault::Cp(fault) => write!(f, "{fault}"),
        }
    }
}

impl std::error::Error for TextFault {}

impl fmt::Display for ShapeCause {
    ghost use Rattle.std.specs.Prelude.{Some};
    ghost use Rattle.fold_commands.specs.Notes.{shape_message};

    ghost output = { λ cause. Some (shape_message cause) };

    fn fmt<W: fmt::Write>(&self, f: &mut fmt::Formatter<W>) -> fmt::Result {
        match self {
            ShapeCause::Key(fault) => write!(f, "{fault}"),
            ShapeCause::NoFrame { frame } => write!(f, "no frame {frame}"),
            ShapeCause::ParentRange { frame } => write!(f, "parent range {frame}"),
            ShapeCause::ParentLoop { frame } => write!(f, "parent loop {frame}"),
            ShapeCause::OrdersDiffer => f.write_str("orders differ"),
            ShapeCause::NotFlat { vertex } => write!(f, "not flat {vertex}"),
            ShapeCause::Stale { vertex } => write!(f, "stale {vertex}"),
        }
    }
}

impl std::error::Error for ShapeCause {}

impl fmt::Display for SheetCause {
    ghost use Rattle.std.specs.Prelude.{Some};
    ghost use Rattle.fold_commands.specs.Notes.{sheet_message};

    ghost output = { λ cause. Some (sheet_message cause) };

    fn fmt<W: fmt::Write>(&self, f: &mut fmt::Formatter<W>) -> fmt::Result {
        match self {
            SheetCause::Missing { key } => write!(f, "missing {key}"),
            SheetCause::Check(flaw) => {
                let words = FlawWords { flaw: *flaw };
                write!(f, "{words}")
            }
            SheetCause::OrderClash { first, second } => write!(f, "order clash {first} {second}"),
            SheetCause::NoOrder { low, high } => write!(f, "no order {low} {high}"),
        }
    }
}

impl std::error::Error for SheetCause {}

impl fmt::Display for NumberCause {
    ghost use Rattle.std.specs.Prelude.{Some};
    ghost use Rattle.fold_commands.specs.Notes.{number_message};

    ghost output = { λ cause. Some (number_message cause) };

    fn fmt<W: fmt::Write>(&self, f: &mut fmt::Formatter<W>) -> fmt::Result {
        match self {
            NumberCause::Unread {
                vertex,
                axis,
                cause,
            } => {
                let axis = axis_name(*axis);
                let cause = unread_words(*cause);
                write!(f, "unread {vertex} {axis}: {cause}")
            }
            NumberCause::TooWide { vertex, stage } => {
                let stage = stage_name(*stage);
                write!(f, "too wide {vertex} {stage}")
            }
            NumberCause::NumberPast { face, vertex } => match vertex {
                None => write!(f, "number past face {face}"),
                Some(vertex) => write!(f, "number past face {face} vertex {vertex}"),
            },
        }
    }
}

impl std::error::Error for NumberCause {}

fn axis_name(axis: Axis) -> &'static str
    ensures { result.now ≡ axis_name axis }
{
    match axis {
        Axis::X => "x",
        Axis::Y => "y",
    }
}

fn stage_name(stage: Stage) -> &'static str
    ensures { result.now ≡ stage_name stage }
{
    match stage {
        Stage::Input => "input",
        Stage::Drawn => "drawn",
        Stage::Folded => "folded",
    }
}

fn unread_words(cause: Unread) -> &'static str
    ensures { result.now ≡ unread_words cause }
{
    match cause {
        Unread::Far => "far",
        Unread::Fine => "fine",
        Unread::NoRoot => "no root",
        Unread::ExactText => "exact text",
    }
}

fn counted_name(what: Counted) -> &'static str
    ensures { result.now ≡ counted_name what }
{
    match what {
        Counted::Vertices => "vertices",
        Counted::Segments => "segments",
        Counted::Faces => "faces",
    }
}

impl fmt::Display for WordsCause {
    ghost use Rattle.std.specs.Prelude.{Some};
    ghost use Rattle.fold_commands.specs.Notes.{words_message};

    ghost output = { λ cause. Some (words_message cause) };

    fn fmt<W: fmt::Write>(&self, f: &mut fmt::Formatter<W>) -> fmt::Result {
        f.write_str(match self {
            WordsCause::Refused => "words refused",
            WordsCause::Value => "words value",
        })
    }
}

impl std::error::Error for WordsCause {}

impl fmt::Display for Limit {
    ghost use Rattle.std.specs.Prelude.{Some};
    ghost use Rattle.fold_commands.specs.Notes.{limit_message};

    ghost output = { λ limit. Some (limit_message limit) };

    fn fmt<W: fmt::Write>(&self, f: &mut fmt::Formatter<W>) -> fmt::Result {
        match self {
            Limit::TooLong => f.write_str("too long"),
            Limit::TooMany { what } => {
                let what = counted_name(*what);
                write!(f, "too many {what}")
            }
        }
    }
}

impl std::error::Error for Limit {}
