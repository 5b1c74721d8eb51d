//! The explanation of a refusal, of a warning, or of the reason of a stop.

ghost use Rattle.std.specs.Prelude.{◌≡◌, ◌++◌, ◌∷◌, [], true, Contains, IfSome, codes, drop, is_some, map, take};
ghost use Rattle.std.specs.List.{list_any};
ghost use Rattle.std.specs.Str.{str_eq_ignore_ascii_case};
ghost use Rattle.fb_why.specs.Explained as spec;
ghost use Rattle.fb_why.specs.Explained.{explained};

use crate::table::{
    Explanation, OF_CHECKS, OF_COURSE_WARNINGS, OF_DECLARATIONS, OF_INPUTS, OF_MAPPINGS,
    OF_MORE_WARNINGS, OF_NETWORK_WARNINGS, OF_RULES, OF_STOPS, OF_WARNINGS,
};

// A search needs only the names in a table. So each table is lent by a function whose contract is about the names only.

fn of_declarations() -> &'static [Explanation]
    ensures { map (λ e. e.name.now) result.now ≡ spec.of_declarations }
{
    &OF_DECLARATIONS
}

fn of_inputs() -> &'static [Explanation]
    ensures { map (λ e. e.name.now) result.now ≡ spec.of_inputs }
{
    &OF_INPUTS
}

fn of_checks() -> &'static [Explanation]
    ensures { map (λ e. e.name.now) result.now ≡ take 6 spec.of_checks }
{
    &OF_CHECKS
}

fn of_mappings() -> &'static [Explanation]
    ensures { map (λ e. e.name.now) result.now ≡ drop 6 spec.of_checks ++ codes "file fault" ∷ [] }
{
    &OF_MAPPINGS
}

fn of_rules() -> &'static [Explanation]
    ensures { map (λ e. e.name.now) result.now ≡ spec.of_rules }
{
    &OF_RULES
}

fn of_warnings() -> &'static [Explanation]
    ensures { map (λ e. e.name.now) result.now ≡ take 6 spec.of_warnings }
{
    &OF_WARNINGS
}

fn of_more_warnings() -> &'static [Explanation]
    ensures { map (λ e. e.name.now) result.now ≡ take 7 (drop 6 spec.of_warnings) }
{
    &OF_MORE_WARNINGS
}

fn of_network_warnings() -> &'static [Explanation]
    ensures { map (λ e. e.name.now) result.now ≡ take 5 (drop 13 spec.of_warnings) }
{
    &OF_NETWORK_WARNINGS
}

fn of_course_warnings() -> &'static [Explanation]
    ensures { map (λ e. e.name.now) result.now ≡ drop 18 spec.of_warnings }
{
    &OF_COURSE_WARNINGS
}

fn of_stops() -> &'static [Explanation]
    ensures { map (λ e. e.name.now) result.now ≡ spec.of_stops }
{
    &OF_STOPS
}

/// Whether two names differ in letter case at most.
fn is_called(name: &str, asked: &str) -> bool
    ensures { result ≡ str_eq_ignore_ascii_case name.now asked.now }
{
    name.eq_ignore_ascii_case(asked)
}

/// The first explanation with the name, in any letter case.
fn look_up(table: &[Explanation], name: &str) -> Option<Explanation>
    ensures named { IfSome result (λ e. str_eq_ignore_ascii_case e.name.now name.now ≡ true) }
    ensures found { is_some result ≡ list_any (λ e. str_eq_ignore_ascii_case e.name.now name.now) table.now }
    ensures whole { IfSome result (Contains table.now) }
{
    for explanation in table {
        if is_called(explanation.name, name) {
            return Some(*explanation);
        }
    }
    None
}

/// The explanation of a refusal or a warning by its name in the line, such as `E21`, `file fault` or `L01`, or of a
/// reason by its name in the last line of a trace, such as `divide`. Letter case makes no difference.
pub fn explain(name: &str) -> Option<Explanation>
    ensures named { IfSome result (λ e. str_eq_ignore_ascii_case e.name.now name.now ≡ true) }
    ensures all { is_some result ≡ list_any (λ n. str_eq_ignore_ascii_case n name.now) explained }
{
    look_up(of_declarations(), name)
        .or(look_up(of_inputs(), name))
        .or(look_up(of_checks(), name))
        .or(look_up(of_mappings(), name))
        .or(look_up(of_rules(), name))
        .or(look_up(of_warnings(), name))
        .or(look_up(of_more_warnings(), name))
        .or(look_up(of_network_warnings(), name))
        .or(look_up(of_course_warnings(), name))
        .or(look_up(of_stops(), name))
}
