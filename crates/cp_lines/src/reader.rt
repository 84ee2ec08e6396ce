ghost use Rattle.std.specs.Prelude.{◌≡◌, IfOk, OnSome, Some, None, [], if◌then◌else◌};
ghost use Rattle.cp_lines.specs.Machine.{class_of, start, line_of, closed, with_line, ended, at_blank, at_line_feed, at_return, at_number_byte, at_other, step, finish};

use crate::line::CpLine;
use fold_base::List;
use json_tree::{NumberScanner, NumberText};
use std::alloc::{AllocError, Global};

/// A text while it is read byte by byte.
#[derive(Drop)]
pub struct Reader {
    pub lines: List<CpLine>,
    pub kind: u8,
    pub numbers: List<NumberText>,
    pub number: NumberScanner,
    pub phase: Phase,
}

/// How far a line has been read.
#[derive(Clone, Copy, PartialEq, Eq)]
pub enum Phase {
    /// Blanks at most.
    Fresh,
    /// The kind was the last byte.
    Kind,
    /// A blank came after the kind or a number.
    Gap,
    /// A number was begun.
    Number,
    /// The line was ended by a return, and its line feed is due.
    Returned,
}

#[derive(Clone, Copy, PartialEq, Eq)]
pub enum ByteClass {
    Blank,
    LineFeed,
    Return,
    Other,
}

impl Reader {
    pub fn new(alloc: Global) -> Reader
        ensures { result ≡ start }
    {
        Reader {
            lines: List::new(alloc),
            kind: 0,
            numbers: List::new(alloc),
            number: NumberScanner::new(alloc),
            phase: Phase::Fresh,
        }
    }

    /// Reads a byte. `false`: it can't stand here.
    pub fn step(&mut self, alloc: Global, byte: u8) -> Result<bool, AllocError>
        ensures { IfOk result (λ went. (if went then Some self.new else None) ≡ step self.old byte) }
    {
        match class_of(byte) {
            ByteClass::Blank => self.blank(alloc),
            ByteClass::LineFeed => self.line_feed(alloc),
            ByteClass::Return => self.carriage_return(alloc),
            ByteClass::Other => self.other(byte),
        }
    }

    /// The lines, where the text may end here.
    pub fn finish(self, alloc: Global) -> Result<Option<List<CpLine>>, AllocError>
        ensures { IfOk result (λ lines. lines ≡ finish self) }
    {
        let mut reader = self;
        if reader.end_line(alloc)? {
            Ok(Some(reader.lines))
        } else {
            Ok(None)
        }
    }

    fn blank(&mut self, alloc: Global) -> Result<bool, AllocError>
        ensures { IfOk result (λ went. (if went then Some self.new else None) ≡ at_blank self.old self.old.phase) }
    {
        match self.phase {
            Phase::Fresh | Phase::Gap => Ok(true),
            Phase::Kind => {
                self.phase = Phase::Gap;
                Ok(true)
            }
            Phase::Number => self.close_number(alloc),
            Phase::Returned => Ok(false),
        }
    }

    fn line_feed(&mut self, alloc: Global) -> Result<bool, AllocError>
        ensures { IfOk result (λ went. (if went then Some self.new else None) ≡ at_line_feed self.old self.old.phase) }
    {
        match self.phase {
            Phase::Returned => {
                self.phase = Phase::Fresh;
                Ok(true)
            }
            _ => self.end_line(alloc),
        }
    }

    fn carriage_return(&mut self, alloc: Global) -> Result<bool, AllocError>
        ensures { IfOk result (λ went. (if went then Some self.new else None) ≡ at_return self.old self.old.phase) }
    {
        let went = self.end_line(alloc)?;
        if went {
            self.phase = Phase::Returned;
        }
        Ok(went)
    }

    fn other(&mut self, byte: u8) -> Result<bool, AllocError>
        ensures { IfOk result (λ went. (if went then Some self.new else None) ≡ at_other self.old byte self.old.phase) }
    {
        match self.phase {
            Phase::Fresh if matches!(byte, b'0'..=b'4') => {
                self.kind = byte - b'0';
                self.phase = Phase::Kind;
                Ok(true)
            }
            Phase::Gap if self.numbers.len() < 4 => self.number_byte(byte),
            Phase::Number => self.number_byte(byte),
            _ => Ok(false),
        }
    }

    fn number_byte(&mut self, byte: u8) -> Result<bool, AllocError>
        ensures { IfOk result (λ went. (if went then Some self.new else None) ≡ at_number_byte self.old byte) }
    {
        let went = self.number.take(byte)?;
        if went {
            self.phase = Phase::Number;
        }
        Ok(went)
    }

    /// Puts the number in hand to those of the line. `false`: it isn't whole.
    fn close_number(&mut self, alloc: Global) -> Result<bool, AllocError>
        ensures { IfOk result (λ went. (if went then Some self.new else None) ≡ closed self.old) }
    {
        if !self.number.is_whole() {
            return Ok(false);
        }
        let number = self.number.finish(alloc)?;
        self.numbers.push(number)?;
        self.phase = Phase::Gap;
        Ok(true)
    }

    /// Ends the line. `false`: it can't end here.
    fn end_line(&mut self, alloc: Global) -> Result<bool, AllocError>
        ensures { IfOk result (λ went. (if went then Some self.new else None) ≡ ended self.old self.old.phase) }
    {
        match self.phase {
            Phase::Fresh => Ok(true),
            Phase::Gap => self.put_line(),
            Phase::Number => Ok(self.close_number(alloc)? && self.put_line()?),
            Phase::Kind | Phase::Returned => Ok(false),
        }
    }

    /// Makes a line of the kind and the numbers. `false`: they are no line.
    fn put_line(&mut self) -> Result<bool, AllocError>
        ensures { IfOk result (λ went. (if went then Some self.new else None) ≡ with_line self.old) }
    {
        match line_of(self.kind, &mut self.numbers) {
            Some(line) => {
                self.lines.push(line)?;
                self.phase = Phase::Fresh;
                Ok(true)
            }
            None => Ok(false),
        }
    }
}

/// The line of a kind and four numbers, which are taken off.
fn line_of(kind: u8, numbers: &mut List<NumberText>) -> Option<CpLine>
    ensures line { result ≡ line_of kind numbers.old }
    ensures taken { OnSome result (numbers.new ≡ []) }
{
    if numbers.len() != 4 {
        return None;
    }
    let y2 = numbers.pop()?;
    let x2 = numbers.pop()?;
    let y1 = numbers.pop()?;
    let x1 = numbers.pop()?;
    Some(CpLine {
        kind,
        x1,
        y1,
        x2,
        y2,
    })
}

fn class_of(byte: u8) -> ByteClass
    ensures { result ≡ class_of byte }
{
    match byte {
        b' ' | b'\t' => ByteClass::Blank,
        b'\n' => ByteClass::LineFeed,
        b'\r' => ByteClass::Return,
        _ => ByteClass::Other,
    }
}
