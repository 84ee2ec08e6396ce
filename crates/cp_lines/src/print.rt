ghost use Rattle.std.specs.Prelude.{◌≡◌, ◌≤◌, ◌⊎◌, ◌++◌, List, Result, All, IfOk, OnOk, string_bytes};
ghost use Rattle.cp_lines.specs.CpText.{CpText};
ghost use Rattle.cp_lines.specs.Print.{IsPrintable, spaced, printed_line, printed_form};
ghost use Rattle.cp_lines.specs.Reads.{Reads, LacksMemory};
ghost use Rattle.cp_lines.specs.declared.line.CpLine.{CpLine};
ghost use Rattle.json_tree.specs.Number.{IsNumber};
ghost use Rattle.cp_lines.specs.declared.fault.CpReadFault.{CpReadFault};

use crate::line::CpLine;
use fold_base::{List, Text};
use json_tree::NumberText;
use std::alloc::{AllocError, Global};

/// The text of the lines, each with single spaces and a line feed, the numbers as they were spelled.
pub fn print_cp(alloc: Global, lines: &List<CpLine>) -> Result<Text, AllocError>
    requires { All (λ line. line.kind ≤ 4) lines.now }
    ensures text { IfOk result (λ text. text ≡ printed_form lines.now) }
    ensures spells { IfOk result (λ text. CpText text lines.now) }
{
    let lines = lines.as_slice();
    let mut out = String::new(alloc);
    for line in lines {
        put_line(&mut out, line)?;
    }
    Ok(Text::from_string(out))
}

/// The printed text of lines spells them, and what `read_cp` may answer for it is these lines, or want of memory.
/// `read_cp` itself takes printed texts up to `MOST_BYTES`.
pub fn reads_back()
    ensures spells { (lines : List CpLine) → All IsPrintable lines → CpText (printed_form lines) lines }
    ensures answer { (lines : List CpLine) (answer : Result (List CpLine) CpReadFault) → All IsPrintable lines
        → Reads (printed_form lines) answer → (answer ≡ Ok lines) ⊎ LacksMemory answer }
{}

fn put_line(out: &mut String, line: &CpLine) -> Result<(), AllocError>
    requires { line.now.kind ≤ 4 }
    ensures printed { OnOk result (string_bytes out.new ≡ string_bytes out.old ++ printed_line line.now) }
    ensures printable { OnOk result (IsPrintable line.now) }
{
    out.push(char::from(b'0' + line.kind))?;
    put_number(out, &line.x1)?;
    put_number(out, &line.y1)?;
    put_number(out, &line.x2)?;
    put_number(out, &line.y2)?;
    out.push('\n')
}

fn put_number(out: &mut String, number: &NumberText) -> Result<(), AllocError>
    ensures printed { OnOk result (string_bytes out.new ≡ string_bytes out.old ++ spaced number.now) }
    ensures number { IsNumber number.now }
{
    let number = number.as_str();
    out.push(' ')?;
    out.push_str(number)
}
