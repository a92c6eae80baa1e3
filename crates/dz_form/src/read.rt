//! Reading the canonical texts of operators and symbols.

ghost use Rattle.std.specs.Prelude.{◌≡◌, ◌<◌, ◌≤◌, ◌+◌, ◌==◌, ℕ, drop, length, position, slice_index, IfNone, IfSome};
ghost use Rattle.std.specs.List.{list_all};
ghost use Rattle.std.specs.Option.{option_map};
ghost use Rattle.dz_rank.specs.declared.symbols.Operator.{Operator};
ghost use Rattle.dz_rank.specs.declared.symbols.Symbol.{Symbol};
ghost use Rattle.dz_form.specs.Reading.{IsOperatorText, IsSymbolText, derivations, derivative_at};
ghost use Rattle.dz_form.specs.Reading.{operator_at, split_once, symbol_at, with_name, without_bracket};

use dz_rank::{Operator, Symbol};
use dz_syntax::Names;

// The operator that takes no derivation.
const IDENTITY: Operator = Operator { counts: [0; 4] };

// The place of the first byte of a kind.
fn place_of(text: &[u8], mark: u8) -> Option<usize>
    ensures place { result ≡ position (λ b. b == mark) text.now }
    ensures within { IfSome result (λ at. at < length text.now) }
{
    text.iter().position(|byte| *byte == mark)
}

// What stands before and behind the first byte of a kind.
fn split_once(text: &[u8], mark: u8) -> Option<(&[u8], &[u8])>
    ensures { option_map (λ p. (p.0.now, p.1.now)) result ≡ split_once mark text.now }
{
    let at = place_of(text, mark)?;
    Some((&text[..at], &text[at + 1..]))
}

// What stands before a closing bracket at the end.
fn without_bracket(text: &[u8]) -> Option<&[u8]>
    ensures { option_map (λ inside. inside.now) result ≡ without_bracket text.now }
{
    text.strip_suffix(b"]")
}

// Whether no independent behind this one is taken.
fn is_last(operator: Operator, i: u8) -> bool
    requires { i < 4 }
    ensures { result ≡ list_all (λ count. count == 0) (drop (i + 1) operator.counts) }
{
    operator.counts[usize::from(i) + 1..]
        .iter()
        .all(|count| *count == 0)
}

// Once more by the independent with a name, unless one behind it is taken already.
#[tactic(auto, unfolding(crate::specs::Reading::with_name))]
fn with_name(names: &Names, mut operator: Operator, name: &[u8]) -> Option<Operator>
    requires { (k : ℕ) → slice_index operator.counts k < 60 }
    ensures value { result ≡ with_name names.now operator name.now }
    ensures grows { IfSome result (λ o.
        (k : ℕ) → slice_index o.counts k ≤ slice_index operator.counts k + 1) }
{
    match names.find(name) {
        Some(Symbol::Independent(i)) if is_last(operator, i) => {
            operator.counts[usize::from(i)] += 1;
            Some(operator)
        }
        _ => None,
    }
}

// An operator, and behind it the names with commas between them, of which `left` may come.
#[tactic(auto, unfolding(crate::specs::Reading::derivations))]
fn derivations(names: &Names, left: u8, operator: Operator, text: &[u8]) -> Option<Operator>
    requires { (k : ℕ) → slice_index operator.counts k + left ≤ 60 }
    ensures { result ≡ derivations left names.now operator text.now }
{
    let left = left.checked_sub(1)?;
    match split_once(text, b',') {
        None => with_name(names, operator, text),
        Some((name, rest)) => derivations(names, left, with_name(names, operator, name)?, rest),
    }
}

// The operator with a text, where - is the identity.
#[tactic(auto, unfolding(crate::specs::Reading::operator_at))]
fn operator(names: &Names, text: &[u8]) -> Option<Operator>
    ensures { result ≡ operator_at names.now text.now }
{
    if text == b"-".as_slice() {
        return Some(IDENTITY);
    }
    derivations(names, 60, IDENTITY, text)
}

// The derivative of the dependent with a name by the operator in brackets.
#[tactic(auto, unfolding(crate::specs::Reading::derivative_at))]
fn derivative(names: &Names, name: &[u8], inside: &[u8]) -> Option<Symbol>
    ensures { result ≡ derivative_at names.now name.now inside.now }
{
    let Symbol::Derivative { dependent, .. } = names.find(name)? else {
        return None;
    };
    let operator = derivations(names, 60, IDENTITY, inside)?;
    Some(Symbol::Derivative {
        dependent,
        operator,
    })
}

// The symbol with a text: a name alone, or one with a bracket behind it.
#[tactic(auto, unfolding(crate::specs::Reading::symbol_at))]
fn symbol(names: &Names, text: &[u8]) -> Option<Symbol>
    ensures { result ≡ symbol_at names.now text.now }
{
    match split_once(text, b'[') {
        None => names.find(text),
        Some((name, rest)) => derivative(names, name, without_bracket(rest)?),
    }
}

/// The operator with this canonical text.
pub fn read_operator(names: &Names, text: &[u8]) -> Option<Operator>
    ensures found { IfSome result (λ o. IsOperatorText names.now o text.now) }
    ensures none { IfNone result ((o : Operator) → IsOperatorText names.now o text.now → ⊥) }
    ensures exact { result ≡ operator_at names.now text.now }
{
    names.opened();
    operator(names, text)
}

/// The symbol with this canonical text.
pub fn read_symbol(names: &Names, text: &[u8]) -> Option<Symbol>
    ensures found { IfSome result (λ s. IsSymbolText names.now s text.now) }
    ensures none { IfNone result ((s : Symbol) → IsSymbolText names.now s text.now → ⊥) }
    ensures exact { result ≡ symbol_at names.now text.now }
{
    names.opened();
    symbol(names, text)
}
