//! Lists of declared names.

ghost use Rattle.std.specs.Prelude.{◌≡◌, ◌≤◌, length, IfOk, false};
ghost use Rattle.dz_syntax.specs.Faults.{Gives};
ghost use Rattle.dz_syntax.specs.Names.{HasRoom, IsName, known};
ghost use Rattle.dz_syntax.specs.Declarations.{new_name, declarations};

use crate::fault::{Stop, SyntaxKind, fault_at, unexpected};
use crate::names::{Group, Names};
use crate::token::{Token, bytes_of, next};
use std::alloc::Global;

// A name that is not declared yet.
#[tactic(auto, unfolding(crate::specs::Declarations::new_name))]
fn new_name<'a>(names: &Names, text: &'a [u8]) -> Result<&'a [u8], Stop>
    ensures read { Gives (λ n. n.now) result (new_name names.now text.now) }
    ensures name { IfOk result (λ n. IsName n.now) }
    ensures new { IfOk result (λ n. known names.now n.now ≡ false) }
{
    match next(text) {
        (Token::Name, _) => {
            let name = bytes_of(text);
            if names.is_known(name) {
                return Err(fault_at(text, SyntaxKind::Twice));
            }
            Ok(name)
        }
        (token, _) => Err(unexpected(text, token)),
    }
}

/// Declares the names at the front, of which `left` more may come.
#[tactic(auto, unfolding(crate::specs::Declarations::declarations))]
pub(crate) fn declarations<'a>(
    alloc: Global,
    group: Group,
    left: u8,
    names: &mut Names,
    text: &'a [u8],
) -> Result<&'a [u8], Stop>
    requires { HasRoom group left names.old }
    ensures read { Gives (λ t. (names.new, t.now)) result
        (declarations left group names.old text.now) }
    ensures shorter { IfOk result (λ t. length t.now ≤ length text.now) }
{
    let name = new_name(names, text)?;
    if left == 0 {
        return Err(fault_at(text, SyntaxKind::Names));
    }
    names.declare(alloc, group, name)?;
    let (_, after) = next(text);
    match next(after) {
        (Token::Comma, rest) => declarations(alloc, group, left - 1, names, rest),
        _ => Ok(after),
    }
}
