// How near to the values of their texts numbers are read.
ghost use Rattle.fold_commands.specs.Near.{AreReadNear, EachReadsNear};

use exact_number::Exact;
use number_rules::answers_are_near;
use rational::Rational;
use root_two::{RootThree, RootTwo};

/// A number that a rule reads of a text lies within the rule's tolerance of the text's value.
fn read_near<N: Exact>()
    ensures { EachReadsNear N.ROOT N.parts }
{
    answers_are_near::<N>();
}

/// The same of all the numbers that drawings are computed with.
pub fn numbers_are_read_near()
    ensures { AreReadNear }
{
    read_near::<Rational>();
    read_near::<RootTwo>();
    read_near::<RootThree>();
}
