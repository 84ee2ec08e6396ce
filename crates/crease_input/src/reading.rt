// Lines read by a rule.
ghost use Rattle.std.specs.Prelude.{◌≡◌, ◌+◌, ◌*◌, ◌<◌, ◌≤◌, ◌^◌, length};
ghost use Rattle.number_rules.specs.Kept.{KeepsItsRow};
ghost use Rattle.crease_input.specs.Lines.{letter_of, IsReadable, Answers, AnswersNumber, AnswersPoint, AnswersLine};

use crate::crease::Crease;
use crate::fault::{Axis, InputFault};
use cp_lines::CpLine;
use exact_number::Exact;
use fold_base::Letter;
use json_tree::NumberText;
use number_rules::{Decimal, NumberRule, Unread};
use scaled_plane::Pair;

/// The letter of a kind. Lines that stay flat have two kinds.
fn letter_of(kind: u8) -> Letter
    requires { kind ≤ 4 }
    ensures { result ≡ letter_of kind }
{
    match kind {
        1 => Letter::Border,
        2 => Letter::Mountain,
        3 => Letter::Valley,
        0 | 4 => Letter::Flat,
        _ => unreachable!(),
    }
}

/// A coordinate of this end.
fn read_number<N: Exact, F: Fn(Decimal) -> Result<N, Unread>>(
    rule: &NumberRule<N, F>,
    text: &NumberText,
    vertex: u32,
    axis: Axis,
) -> Result<N, InputFault>
    requires keeps { KeepsItsRow N.ROOT N.parts rule.now.row (F.pre rule.now.call) (F.post rule.now.call) }
    requires length { length text.now ≤ 16777216 }
    ensures { AnswersNumber (Answers N.ROOT N.parts rule.now.row (F.post rule.now.call)) text.now vertex axis result }
{
    match rule.apply(text) {
        Ok(number) => Ok(number),
        Err(cause) => Err(InputFault::Unread {
            vertex,
            axis,
            cause,
        }),
    }
}

/// An end, its x before its y.
pub(crate) fn read_point<N: Exact, F: Fn(Decimal) -> Result<N, Unread>>(
    rule: &NumberRule<N, F>,
    x: &NumberText,
    y: &NumberText,
    vertex: u32,
) -> Result<Pair<N>, InputFault>
    requires keeps { KeepsItsRow N.ROOT N.parts rule.now.row (F.pre rule.now.call) (F.post rule.now.call) }
    requires x_length { length x.now ≤ 16777216 }
    requires y_length { length y.now ≤ 16777216 }
    ensures { AnswersPoint (Answers N.ROOT N.parts rule.now.row (F.post rule.now.call)) x.now y.now vertex result }
{
    let x = read_number(rule, x, vertex, Axis::X)?;
    let y = read_number(rule, y, vertex, Axis::Y)?;
    Ok(Pair { x, y })
}

/// The line with this number, whose ends are told by twice the number and the one after it.
pub(crate) fn read_line<N: Exact, F: Fn(Decimal) -> Result<N, Unread>>(
    rule: &NumberRule<N, F>,
    line: &CpLine,
    number: u32,
) -> Result<Crease<N>, InputFault>
    requires keeps { KeepsItsRow N.ROOT N.parts rule.now.row (F.pre rule.now.call) (F.post rule.now.call) }
    requires readable { IsReadable line.now }
    requires number { number < 2 ^ 31 }
    ensures { AnswersLine (Answers N.ROOT N.parts rule.now.row (F.post rule.now.call)) line.now number result }
{
    let from = read_point(rule, &line.x1, &line.y1, 2 * number)?;
    let to = read_point(rule, &line.x2, &line.y2, 2 * number + 1)?;
    let letter = letter_of(line.kind);
    Ok(Crease { from, to, letter })
}
