//! The arguments of the program.
ghost use Rattle.btree_session.specs.Arguments.{Asks, AsksLimit, texts};
ghost use Rattle.btree_session.specs.Line.{SomeIfAny};

use crate::Setup;
use crate::line::number;

/// Reads the arguments after the program's name: `table`, `limit` and a number of decimal digits, both in this order, or none at all. The
/// limit is `usize::MAX` if none is asked for. Returns `None` for any other arguments.
pub fn setup(words: &[&str]) -> Option<Setup>
    ensures { SomeIfAny (λ asked. Asks asked.table asked.limit (texts words.now)) result }
{
    match words {
        [] => Some(Setup {
            table: false,
            limit: usize::MAX,
        }),
        [word, rest @ ..] => {
            if *word == "table" {
                let limit = limit_of(rest)?;
                return Some(Setup { table: true, limit });
            }
            let limit = limit_of(words)?;
            Some(Setup {
                table: false,
                limit,
            })
        }
    }
}

// Returns the limit that the words ask for: `limit` and a number, or no words at all.
fn limit_of(words: &[&str]) -> Option<usize>
    ensures { SomeIfAny (λ limit. AsksLimit limit (texts words.now)) result }
{
    match words {
        [] => Some(usize::MAX),
        [word, digits] if *word == "limit" => Some(number(digits.as_bytes())? as usize),
        _ => None,
    }
}
