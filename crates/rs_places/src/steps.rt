//! The steps on the way to a value of a document.

ghost use Rattle.std.specs.Prelude.{◌≡◌, option_map};
ghost use Rattle.toml.specs.View.{view};
ghost use Rattle.rs_places.specs.Positions.{data_at, stepped};

use toml::value::Value;

/// A step on the way to a value.
#[derive(Clone, Copy)]
pub enum Step<'a> {
    /// The value at a key of a table.
    Key(&'a str),
    /// A value of an array, counted from 0.
    Item(usize),
}

fn stepped<'d>(value: &'d Value, step: &Step<'_>) -> Option<&'d Value>
    ensures { option_map (λ v. view v.now) result ≡ stepped step.now (view value.now) }
{
    match step {
        Step::Key(key) => value.get(*key),
        Step::Item(number) => value.get(*number),
    }
}

/// The value of a document that some steps lead to.
pub fn value_at<'d>(document: &'d Value, steps: &[Step<'_>]) -> Option<&'d Value>
    ensures { option_map (λ v. view v.now) result ≡ data_at steps.now (view document.now) }
{
    match steps {
        [] => Some(document),
        [step, left @ ..] => value_at(stepped(document, step)?, left),
    }
}
