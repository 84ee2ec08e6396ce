// Lines as a FOLD file.
ghost use Rattle.std.specs.Prelude.{◌≡◌, None, IfOk};
ghost use Rattle.crease_input.specs.Files.{IsFileable};
ghost use Rattle.crease_input.specs.Readings.{HaveEnds};
ghost use Rattle.number_rules.specs.Kept.{KeepsItsRow};
ghost use Rattle.fold_commands.specs.Drawings.{AreSoundLines, DrawsBy, DrawsLines, LackEnds};
ghost use Rattle.fold_commands.specs.Steps.{Follows, Steps};

use crate::drawing::write_pattern;
use crate::number_option::NumberChoice;
use crate::status::Status;
use cp_lines::CpLine;
use crease_input::all_lines_ends;
use exact_number::Exact;
use fold_base::{List, Text};
use number_rules::{
    Decimal, NumberRule, Unread, exact_rule, grid_rule, read_exact, read_grid, read_root_three,
    read_root_two, root_three_rule, root_two_rule,
};
use rational::Rational;
use scaled_plane::Ends;
use std::alloc::Global;

/// The file of the lines, their coordinates read by this choice.
pub fn draw(alloc: Global, number: NumberChoice, lines: List<CpLine>) -> Result<Text, Status>
    requires { AreSoundLines lines }
    ensures { Follows (DrawsBy number lines) result }
{
    match number {
        NumberChoice::Exact => {
            let rule = exact_rule(|value: Decimal| read_exact::<Rational>(value));
            draw_by(alloc, lines, &rule)
        }
        NumberChoice::Grid(n) => {
            let n = n.value;
            let rule = grid_rule(n, |value: Decimal| read_grid::<Rational>(n, value));
            draw_by(alloc, lines, &rule)
        }
        NumberChoice::RootTwo(n) => {
            let n = n.value;
            let rule = root_two_rule(n, |value: Decimal| read_root_two(n, value));
            draw_by(alloc, lines, &rule)
        }
        NumberChoice::RootThree(n) => {
            let n = n.value;
            let rule = root_three_rule(n, |value: Decimal| read_root_three(n, value));
            draw_by(alloc, lines, &rule)
        }
    }
}

/// The file of the lines, their coordinates read by this rule.
fn draw_by<N: Exact, F: Fn(Decimal) -> Result<N, Unread>>(
    alloc: Global,
    lines: List<CpLine>,
    rule: &NumberRule<N, F>,
) -> Result<Text, Status>
    requires keeps { KeepsItsRow N.ROOT N.parts rule.now.row (F.pre rule.now.call) (F.post rule.now.call) }
    requires sound { AreSoundLines lines }
    ensures { Follows (DrawsLines N.ROOT N.parts rule.now.row lines) result }
{
    let ends = ends_by(alloc, lines, rule)?;
    write_pattern(alloc, &ends)
}

/// The vertices and edges of the lines, which aren't kept, or the first coordinate that isn't read.
fn ends_by<N: Exact, F: Fn(Decimal) -> Result<N, Unread>>(
    alloc: Global,
    lines: List<CpLine>,
    rule: &NumberRule<N, F>,
) -> Result<Ends<N>, Status>
    requires keeps { KeepsItsRow N.ROOT N.parts rule.now.row (F.pre rule.now.call) (F.post rule.now.call) }
    requires sound { AreSoundLines lines }
    ensures ends { Steps (LackEnds N.ROOT N.parts rule.now.row lines)
        (HaveEnds N.ROOT N.parts rule.now.row lines) result }
    ensures fileable { IfOk result (λ ends. IsFileable N.parts ends None None) }
{
    Ok(all_lines_ends(alloc, lines.as_slice(), rule)?)
}
